// Lists of entries in the order of their ids.
ghost use Rattle.std.specs.{Prelude.{◌≡◌, ◌↔◌, ◌+◌, ◌^◌, ◌<◌, ◌++◌, All, IsTrue, IfOk, IfErr, length, filter}, Set.{distinct_count, is_member}, List.Sorted.IsSorted, Map.keys_of, FinMap.is_sorted};
ghost use Rattle.stn_records.specs.{Id.{id_cmp, lesser_of}, Content.{same_ids, greatest_counter as greatest_of}, Sorted.{dispute_of, first_key, has_entries as has_entries_of, IsPlaceOf, IsGapFor, IsEndOf, merge, past_id}};

use crate::id::{Id, Site};
use crate::map_value::MapValue;
use std::alloc::Allocator;
use std::cmp::Ordering;
use stn_time::Memory;

pub(crate) fn is_rising<X>(entries: &[(Id, X)]) -> bool
    ensures { IsTrue result ↔ IsTrue (is_sorted id_cmp entries.now) }
{
    entries.is_sorted_by(|before, after| before.0 < after.0)
}

// The place of the id, or the place where it would go.
pub(crate) fn place_of<X>(entries: &[(Id, X)], id: Id) -> Result<usize, usize>
    requires { IsTrue (is_sorted id_cmp entries.now) }
    ensures found { IfOk result (IsPlaceOf entries.now id) }
    ensures absent { IfErr result (IsGapFor entries.now id) }
{
    entries.binary_search_by_key(&id, |entry| entry.0)
}

pub(crate) fn are_fit<X: MapValue>(entries: &[(Id, X)]) -> bool
    ensures { IsTrue result ↔ All (λ entry. X.Fits entry.1) entries.now }
{
    entries.iter().all(|entry| entry.1.is_fit())
}

// The entries of both; at an id of both, that of ours.
pub(crate) fn merged<X: Copy, A: Allocator + Copy>(
    alloc: A,
    ours: &[(Id, X)],
    theirs: &[(Id, X)],
) -> Result<Vec<(Id, X), A>, Memory>
    ensures { IfOk result (λ all. all.items ≡ merge id_cmp ours.now theirs.now) }
{
    let mut all = Vec::with_capacity(alloc, ours.len().saturating_add(theirs.len()))?;
    let mut left = ours;
    let mut right = theirs;
    while let (Some((our, rest)), Some((their, others))) = (
        left.split_first(),
        right.split_first(),
    ) {
        let next = match our.0.cmp(&their.0) {
            Ordering::Less => {
                left = rest;
                *our
            }
            Ordering::Equal => {
                left = rest;
                right = others;
                *our
            }
            Ordering::Greater => {
                right = others;
                *their
            }
        };
        all.push(next)?;
    }
    all.extend_from_slice(left)?;
    all.extend_from_slice(right)?;
    Ok(all)
}

#[tactic(auto, using(crate::proofs::Disputes::ours_first, std::proofs::lemmas::Bool::and_parts, crate::proofs::Disputes::both_agree, crate::proofs::Disputes::theirs_first, crate::proofs::Disputes::ended))]
pub(crate) fn first_dispute<X: MapValue>(ours: &[(Id, X)], theirs: &[(Id, X)]) -> Option<Id>
    requires ours { IsTrue (is_sorted id_cmp ours.now) }
    requires theirs { IsTrue (is_sorted id_cmp theirs.now) }
    ensures { result ≡ dispute_of X.same ours.now theirs.now }
{
    let mut left = ours;
    let mut right = theirs;
    while let (Some((our, rest)), Some((their, others))) = (
        left.split_first(),
        right.split_first(),
    ) {
        match our.0.cmp(&their.0) {
            Ordering::Less => left = rest,
            Ordering::Equal => {
                if !our.1.is_same(&their.1) {
                    return Some(our.0);
                }
                left = rest;
                right = others;
            }
            Ordering::Greater => right = others,
        }
    }
    None
}

#[tactic(auto, using(crate::proofs::Holding::theirs_first, crate::proofs::Holding::ours_first, std::proofs::lemmas::Bool::and_parts, crate::proofs::Holding::both_first))]
pub(crate) fn has_entries<X: MapValue>(ours: &[(Id, X)], theirs: &[(Id, X)]) -> bool
    requires ours { IsTrue (is_sorted id_cmp ours.now) }
    requires theirs { IsTrue (is_sorted id_cmp theirs.now) }
    ensures { result ≡ has_entries_of X.same ours.now theirs.now }
{
    let mut left = ours;
    let mut right = theirs;
    while let (Some((our, rest)), Some((their, others))) = (
        left.split_first(),
        right.split_first(),
    ) {
        match our.0.cmp(&their.0) {
            Ordering::Less => left = rest,
            Ordering::Equal => {
                if !our.1.is_same(&their.1) {
                    return false;
                }
                left = rest;
                right = others;
            }
            Ordering::Greater => return false,
        }
    }
    right.is_empty()
}

pub(crate) fn kept<X: Copy, A: Allocator + Copy>(
    alloc: A,
    entries: &[(Id, X)],
    wanted: &[Id],
) -> Result<Vec<(Id, X), A>, Memory>
    ensures { IfOk result (λ all. all.items ≡ filter (λ entry. is_member same_ids wanted.now entry.0) entries.now) }
{
    let mut ids = Vec::from_slice(alloc, wanted)?;
    ids.sort_unstable();
    among(alloc, entries, &ids)
}

// The entries whose ids are among ids in order.
fn among<X: Copy, A: Allocator + Copy>(
    alloc: A,
    entries: &[(Id, X)],
    ids: &[Id],
) -> Result<Vec<(Id, X), A>, Memory>
    requires { IsSorted id_cmp ids.now }
    ensures { IfOk result (λ all. all.items ≡ filter (λ entry. is_member same_ids ids.now entry.0) entries.now) }
{
    let mut all = Vec::new(alloc);
    for entry in entries {
        if has_id(ids, entry.0) {
            all.push(*entry)?;
        }
    }
    Ok(all)
}

fn has_id(ids: &[Id], id: Id) -> bool
    requires { IsSorted id_cmp ids.now }
    ensures { result ≡ is_member same_ids ids.now id }
{
    ids.binary_search(&id).is_ok()
}

pub(crate) fn greatest_counter<X>(entries: &[(Id, X)], site: Site) -> u16
    requires { IsTrue (is_sorted id_cmp entries.now) }
    ensures { result ≡ greatest_of site (keys_of entries.now) }
{
    let Some(last) = entries[..end_of(entries, site)].last() else {
        return 0;
    };
    if last.0.site() == site {
        last.0.counter()
    } else {
        0
    }
}

// The place after the entries of the site and of lesser ones.
fn end_of<X>(entries: &[(Id, X)], site: Site) -> usize
    requires { IsTrue (is_sorted id_cmp entries.now) }
    ensures { IsEndOf entries.now site result }
{
    entries.partition_point(|entry| entry.0.site() <= site)
}

pub(crate) fn count_ids<X, Y>(a: &[(Id, X)], b: &[(Id, Y)], c: &[(Id, X)], d: &[(Id, Y)]) -> usize
    requires a { IsTrue (is_sorted id_cmp a.now) }
    requires b { IsTrue (is_sorted id_cmp b.now) }
    requires c { IsTrue (is_sorted id_cmp c.now) }
    requires d { IsTrue (is_sorted id_cmp d.now) }
    requires fits { length a.now + length b.now + length c.now + length d.now < 2 ^ 64 }
    ensures { result ≡ distinct_count same_ids ((keys_of a.now ++ keys_of b.now) ++ (keys_of c.now ++ keys_of d.now)) }
{
    let mut rest_a = a;
    let mut rest_b = b;
    let mut rest_c = c;
    let mut rest_d = d;
    let mut count = 0;
    while let Some(id) = least_first(rest_a, rest_b, rest_c, rest_d) {
        rest_a = past(rest_a, id);
        rest_b = past(rest_b, id);
        rest_c = past(rest_c, id);
        rest_d = past(rest_d, id);
        count += 1;
    }
    count
}

fn least_first<X, Y>(a: &[(Id, X)], b: &[(Id, Y)], c: &[(Id, X)], d: &[(Id, Y)]) -> Option<Id>
    ensures { result ≡ lesser_of (lesser_of (first_key a.now) (first_key b.now)) (lesser_of (first_key c.now) (first_key d.now)) }
{
    lesser(lesser(first(a), first(b)), lesser(first(c), first(d)))
}

fn first<X>(entries: &[(Id, X)]) -> Option<Id>
    ensures { result ≡ first_key entries.now }
{
    let (entry, _) = entries.split_first()?;
    Some(entry.0)
}

// The lesser of two ids, where there are two.
pub(crate) fn lesser(a: Option<Id>, b: Option<Id>) -> Option<Id>
    ensures { result ≡ lesser_of a b }
{
    match (a, b) {
        (Some(x), Some(y)) => { if y < x { b } else { a } }
        (Some(_), None) => a,
        (None, _) => b,
    }
}

// The entries after the first, where that is the id's.
fn past<X>(entries: &[(Id, X)], id: Id) -> &[(Id, X)]
    ensures { result.now ≡ past_id id entries.now }
{
    match entries.split_first() {
        Some((entry, rest)) => { if entry.0 == id { rest } else { entries } }
        None => entries,
    }
}
