ghost use Rattle.std.specs.{Prelude.{◌≡◌, length}, Iterator.at_most, Map.Iter.TakesFirst};
ghost use Rattle.stn_records.specs.Content.{live_of};
ghost use Rattle.stn_site.specs.Growth.{risen};

use std::alloc::Allocator;
use std::cmp::Ordering;
use std::iter::Iterator;
use std::marker::Model;
use stn_records::{Id, LiveRecords, Record, Records};

// The records that have become live from what was held before to what is held after, in order of id.
#[derive(Drop)]
pub struct Risen<'a> {
    after: LiveRecords<'a>,
    // The first record that was live before and is not passed yet, and the others.
    next_before: Option<(Id, Record)>,
    before: LiveRecords<'a>,
}

impl<'a> Model for Risen<'a> {
    ghost use Rattle.std.specs.{Prelude.{List, IsTrue}, FinMap.is_sorted, Coded.{coded_list, coded×}};
    ghost use Rattle.stn_records.specs.{Id.{SiteCounter, id_cmp, coded_id}, Record.coded_record, declared.record.Record.Record, Sorted.without_ids};
    ghost use Rattle.stn_replica.specs.Walk.{from_next};

    ghost Value = { List (SiteCounter × Record) };

    ghost coded = { coded_list (coded× coded_id coded_record) };

    ghost view = { λ walk. without_ids walk.after (from_next walk.next_before walk.before) };

    ghost invariant = { λ walk. IsTrue (is_sorted id_cmp walk.after) × IsTrue (is_sorted id_cmp (from_next walk.next_before walk.before)) };
}

impl<'a> Risen<'a> {
    pub fn between<A: Allocator + Copy>(before: &'a Records<A>, after: &'a Records<A>) -> Risen<'a>
        ensures { result ≡ risen before.now after.now }
    {
        let mut were = before.live_records();
        let next_before = were.next();
        Risen {
            after: after.live_records(),
            next_before,
            before: were,
        }
    }

    // All live records, where none was live before.
    pub fn of_all<A: Allocator + Copy>(records: &'a Records<A>) -> Risen<'a>
        ensures { result ≡ live_of records.now }
    {
        Risen {
            after: records.live_records(),
            next_before: None,
            before: records.live_records(),
        }
    }
}

impl<'a> Iterator for Risen<'a> {
    type Item = (Id, Record);

    ghost next_gives = { TakesFirst (λ entry. entry) };

    ghost remaining = { λ walk. at_most (length walk) };

    #[tactic(auto, using(stn_records::proofs::Live::ours_first, stn_records::proofs::Live::both_first, stn_records::proofs::Live::theirs_first, std::proofs::lemmas::Bool::and_parts, crate::proofs::Rising::next_taken))]
    fn next(&mut self) -> Option<(Id, Record)> {
        let mut new = self.after.next()?;
        while let Some(old) = self.next_before {
            match new.0.cmp(&old.0) {
                Ordering::Less => return Some(new),
                Ordering::Equal => {
                    self.next_before = self.before.next();
                    new = self.after.next()?;
                }
                Ordering::Greater => self.next_before = self.before.next(),
            }
        }
        Some(new)
    }
}
