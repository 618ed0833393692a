ghost use Rattle.std.specs.Prelude.{◌≡◌, ℕ, ◌≤◌, ◌++◌, ◌↔◌, IsSome, IsNone, IfSome, ◌≢◌, Some, All, OnOk, OnErr, decimal};
ghost use Rattle.stn_records.specs.Id.{SiteCounter, IsSite, IsId, id_text, SplitsAtDot};

use std::alloc::Allocator;
use std::marker::Model;
use stn_text::{print_id, read_decimal};
use stn_time::Memory;

/// The greatest number of a site.
pub const MOST_SITES: u8 = 64;

/// A site, by its number from 1 to 64.
#[derive(Clone, Copy, Debug, PartialEq, Eq, PartialOrd, Ord)]
pub struct Site {
    number: u8,
}

impl Model for Site {
    ghost use Rattle.std.specs.Prelude.{ℕ};
    ghost use Rattle.stn_records.specs.Id.{IsSite};

    ghost Value = { ℕ };

    ghost view = { λ s. s.number };

    ghost invariant = { λ s. IsSite s.number };

    ghost inverse = { λ n. record { number = n } };
}

impl Site {
    /// The site of this number, where it lies from 1 to 64.
    pub fn new(number: u8) -> Option<Site>
        ensures within { IsSome result ↔ IsSite number }
        ensures value { IfSome result (λ site. site ≡ number) }
    {
        if 1 <= number && number <= MOST_SITES {
            Some(Site { number })
        } else {
            None
        }
    }

    /// The number of the site.
    pub fn number(self) -> u8
        ensures value { result ≡ self }
        ensures within { IsSite result }
    {
        self.number
    }
}

/// The id of a record: the site that made it, and a counter from 1 to 65,535. Ids are ordered by
/// site, and then by counter.
#[derive(Clone, Copy, Debug, PartialEq, Eq, PartialOrd, Ord)]
pub struct Id {
    site: Site,
    counter: u16,
}

impl Model for Id {
    ghost use Rattle.std.specs.Prelude.{◌≤◌};
    ghost use Rattle.stn_records.specs.Id.{SiteCounter, coded_id};

    ghost Value = { SiteCounter };

    ghost coded = { coded_id };

    ghost view = { λ i. record { site = i.site; counter = i.counter } };

    ghost invariant = { λ i. 1 ≤ i.counter };

    ghost inverse = { λ v. record { site = v.site; counter = v.counter } };
}

impl Id {
    /// The id of this site and counter, where the counter is not 0.
    pub fn new(site: Site, counter: u16) -> Option<Id>
        ensures within { IsSome result ↔ (1 ≤ counter) }
        ensures value { IfSome result (λ id. id ≡ record { site = site; counter = counter }) }
    {
        if 1 <= counter {
            Some(Id { site, counter })
        } else {
            None
        }
    }

    /// The site that made the record.
    pub fn site(self) -> Site
        ensures value { result ≡ self.site }
        ensures within { IsSite result }
    {
        prove!(self.site.number() <= MOST_SITES);
        self.site
    }

    /// The counter, from 1 on.
    pub fn counter(self) -> u16
        ensures value { result ≡ self.counter }
        ensures least { 1 ≤ result }
    {
        self.counter
    }

    /// The id that is printed so: `site.counter`, both numbers without leading zeros.
    pub fn read(text: &[u8]) -> Option<Id>
        ensures found { IfSome result (λ id. text.now ≡ id_text id) }
        ensures within { IfSome result IsId }
        ensures all { (id : SiteCounter) → IsId id → text.now ≡ id_text id → result ≡ Some id }
    {
        match split_at_dot(text) {
            Some((site, counter)) => read_numbers(site, counter),
            None => None,
        }
    }

    /// Appends the printed form; if memory runs out, it appends nothing.
    pub fn print<A: Allocator>(self, out: &mut Vec<u8, A>) -> Result<(), Memory>
        ensures printed { OnOk result (out.new.items ≡ out.old.items ++ id_text self) }
        ensures kept { OnErr result (out.new.items ≡ out.old.items) }
    {
        print_id(self.site.number(), self.counter, out)
    }
}

// The site of this number, in its decimal form.
fn read_site(text: &[u8]) -> Option<Site>
    ensures found { IfSome result (λ site. text.now ≡ decimal site) }
    ensures all { (site : ℕ) → IsSite site → text.now ≡ decimal site → result ≡ Some site }
{
    let number = read_decimal(text)?;
    if number <= u16::from(MOST_SITES) {
        Site::new(number as u8)
    } else {
        None
    }
}

// The id of these two numbers, in their decimal forms.
fn read_numbers(site: &[u8], counter: &[u8]) -> Option<Id>
    ensures site { IfSome result (λ id. site.now ≡ decimal id.site) }
    ensures counter { IfSome result (λ id. counter.now ≡ decimal id.counter) }
    ensures all { (id : SiteCounter) → IsId id → site.now ≡ decimal id.site → counter.now ≡ decimal id.counter → result ≡ Some id }
{
    let site = read_site(site)?;
    let counter = read_decimal(counter)?;
    Id::new(site, counter)
}

// What stands before the first dot, and what after it.
fn split_at_dot(text: &[u8]) -> Option<(&[u8], &[u8])>
    ensures parts { IfSome result (λ parts. SplitsAtDot text.now parts.0.now parts.1.now) }
    ensures none { IsNone result → All (λ byte. byte ≢ 46) text.now }
{
    for (place, byte) in text.iter().enumerate() {
        if *byte == b'.' {
            return Some((&text[..place], &text[place + 1..]));
        }
    }
    None
}
