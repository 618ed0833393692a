use std::alloc::{AllocError, Global};
use std::rc::Rc;
use stn_lift::{Base, Source};
use stn_net::Event;
use stn_records::{Id, Site};
use stn_replica::Replica;
use stn_text::{first_word, read_number};
use stn_time::{HORIZON, Ms};
use stn_world::World;

/// The sites of a script, each with a replica, whose report comes from its matrix.
#[derive(Drop)]
pub struct Replicas {
    alloc: Global,
    base: Rc<Base<Global>, Global>,
    world: World<Global>,
}

// The words of a line.
#[derive(Drop)]
struct Words<'a> {
    rest: &'a [u8],
}

impl<'a> Words<'a> {
    fn next(&mut self) -> Option<&'a [u8]> {
        let (word, behind) = first_word(self.rest)?;
        self.rest = behind;
        Some(word)
    }

    fn number(&mut self) -> Option<u32> {
        read_number(self.next()?)
    }

    fn event(&mut self) -> Option<Event> {
        Event::read(self.next()?)
    }

    fn id(&mut self) -> Option<Id> {
        Id::read(self.next()?)
    }

    fn time(&mut self) -> Option<Ms> {
        Ms::read(self.next()?).ok()
    }

    // The side of a bound, which `*` leaves open.
    fn side(&mut self, open_side: i64) -> Option<Ms> {
        let word = self.next()?;
        if word == b"*".as_slice() {
            Ms::new(open_side)
        } else {
            Ms::read(word).ok()
        }
    }
}

// What the plan of a heading is made from: the texts of its two blocks, or so many steps.
fn source_of(alloc: Global, heading: &str) -> Result<Source<Global>, AllocError> {
    match heading.strip_prefix("domain\n") {
        Some(texts) => {
            let (domain, behind) = texts.split_once("\nend\nplan\n").unwrap_or((texts, ""));
            let (plan, _) = behind.split_once("\nend\n").unwrap_or((behind, ""));
            let domain = format!(in alloc; "{domain}\n")?;
            let plan = format!(in alloc; "{plan}\n")?;
            Ok(Source::Files(domain.into_bytes(), plan.into_bytes()))
        }
        None => {
            let first = heading.lines().next().unwrap_or("");
            let steps = first.strip_prefix("steps ").unwrap_or("");
            Ok(Source::Bare(steps.parse::<u16>().unwrap_or(0)))
        }
    }
}

impl Replicas {
    /// So many sites of the plan of a heading, which hold nothing yet; none where there is no such plan, or memory is out.
    pub fn open(alloc: Global, heading: &str, sites: u8) -> Option<Replicas> {
        let source = source_of(alloc, heading).ok()?;
        let base = Base::from_source(alloc, &source).ok();
        drop(source);
        let base = Rc::new(alloc, base?).ok()?;
        let shared = base.clone().ok()?;
        let world = World::new(alloc, shared, sites).ok()?;
        Some(Replicas { alloc, base, world })
    }

    /// Makes the change of a line. A line of another form, or one that is refused, changes nothing.
    pub fn follow(&mut self, line: &str) -> Option<()> {
        let mut words = Words {
            rest: line.as_bytes(),
        };
        let site = words.number()?;
        let command = words.next()?;
        if command == b"send".as_slice() {
            self.send(site, &mut words)
        } else {
            self.change(site, command, &mut words)
        }
    }

    fn change(&mut self, site: u32, command: &[u8], words: &mut Words<'_>) -> Option<()> {
        let world = &mut self.world;
        if command == b"add".as_slice() {
            let (from, to) = (words.event()?, words.event()?);
            let (lo, hi) = (words.side(-HORIZON)?, words.side(HORIZON)?);
            let _ = world.add(site, from, to, lo, hi);
        } else if command == b"amend".as_slice() {
            let old = words.id()?;
            let (from, to) = (words.event()?, words.event()?);
            let (lo, hi) = (words.side(-HORIZON)?, words.side(HORIZON)?);
            let _ = world.amend(site, old, from, to, lo, hi);
        } else if command == b"done".as_slice() {
            let _ = world.done(site, words.event()?, words.time()?);
        } else if command == b"withdraw".as_slice() {
            let _ = world.withdraw(site, words.id()?);
        } else if command == b"merge".as_slice() {
            let _ = world.merge(site, words.number()?);
        } else if command == b"deliver".as_slice() {
            let _ = world.deliver(site, words.number()?);
        }
        Some(())
    }

    // Sends all, or the items that the words name: an id, or a withdrawn one after `-`.
    fn send(&mut self, site: u32, words: &mut Words<'_>) -> Option<()> {
        let mut records = Vec::new(self.alloc);
        let mut tombstones = Vec::new(self.alloc);
        for _ in 0..words.rest.len() {
            let Some(word) = words.next() else {
                break;
            };
            match word.strip_prefix(b"-".as_slice()) {
                Some(id) => tombstones.push(Id::read(id)?).ok()?,
                None => records.push(Id::read(word)?).ok()?,
            }
        }
        if records.is_empty() && tombstones.is_empty() {
            let _ = self.world.send_all(site);
        } else {
            let _ = self.world.send(site, &records, &tombstones);
        }
        Some(())
    }

    /// Whether each site reports what a new replica does that took the same records.
    pub fn are_fresh(&self) -> bool {
        for before in 0..self.world.sites() {
            let site = u32::from(before).saturating_add(1);
            if self.is_fresh(site) != Some(true) {
                return false;
            }
        }
        true
    }

    fn is_fresh(&self, site: u32) -> Option<bool> {
        let alloc = self.alloc;
        let replica = self.world.replica(site)?;
        let mut fresh = Replica::new(alloc, replica.site(), self.base.clone().ok()?).ok()?;
        fresh.take(replica.records()).ok()?;
        let mut ours = Vec::new(alloc);
        let mut theirs = Vec::new(alloc);
        let reported = replica.report(&mut ours).is_ok() && fresh.report(&mut theirs).is_ok();
        drop(fresh);
        let same = reported && ours == theirs;
        Some(same)
    }
}
