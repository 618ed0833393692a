ghost use Rattle.std.specs.{Prelude.{◌≡◌, length, IsTrue}, FinMap.is_sorted, Iterator.at_most, Map.Iter.TakesFirst};
ghost use Rattle.stn_records.specs.{Id.id_cmp, Sorted.without_ids};

use crate::id::Id;
use crate::record::Record;
use std::cmp::Ordering;
use std::iter::Iterator;
use std::marker::Model;

/// The live records, in order of id: those that were added and are not replaced. It walks once over
/// both, and asks for no memory.
#[derive(Drop)]
pub struct LiveRecords<'a> {
    added: &'a [(Id, Record)],
    replaced: &'a [(Id, ())],
}

impl<'a> Model for LiveRecords<'a> {
    ghost use Rattle.std.specs.{Prelude.{List, IsTrue}, FinMap.is_sorted, Coded.{coded_list, coded×}};
    ghost use Rattle.stn_records.specs.{Id.{SiteCounter, id_cmp, coded_id}, Record.coded_record, declared.record.Record.Record, Sorted.without_ids};

    ghost Value = { List (SiteCounter × Record) };

    ghost coded = { coded_list (coded× coded_id coded_record) };

    ghost view = { λ ahead. without_ids ahead.added.now ahead.replaced.now };

    ghost invariant = { λ ahead. IsTrue (is_sorted id_cmp ahead.added.now) × IsTrue (is_sorted id_cmp ahead.replaced.now) };
}

impl<'a> LiveRecords<'a> {
    pub(crate) fn among(added: &'a [(Id, Record)], replaced: &'a [(Id, ())]) -> LiveRecords<'a>
        requires added { IsTrue (is_sorted id_cmp added.now) }
        requires replaced { IsTrue (is_sorted id_cmp replaced.now) }
        ensures { result ≡ without_ids added.now replaced.now }
    {
        LiveRecords { added, replaced }
    }
}

impl<'a> Iterator for LiveRecords<'a> {
    type Item = (Id, Record);

    ghost next_gives = { TakesFirst (λ entry. entry) };

    ghost remaining = { λ ahead. at_most (length ahead) };

    #[tactic(auto, using(crate::proofs::Live::ours_first, crate::proofs::Live::both_first, crate::proofs::Live::theirs_first, std::proofs::lemmas::Bool::and_parts))]
    fn next(&mut self) -> Option<(Id, Record)> {
        while let Some((entry, others)) = self.added.split_first() {
            let Some((replaced, rest)) = self.replaced.split_first() else {
                self.added = others;
                return Some(*entry);
            };
            match entry.0.cmp(&replaced.0) {
                Ordering::Less => {
                    self.added = others;
                    return Some(*entry);
                }
                Ordering::Equal => {
                    self.added = others;
                    self.replaced = rest;
                }
                Ordering::Greater => self.replaced = rest,
            }
        }
        None
    }
}
