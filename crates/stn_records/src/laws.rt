ghost use Rattle.std.specs.{Prelude.{◌≡◌, List, ◌∷◌, None, Some, true, All, option_and_then}, FinMap.FinMap, List.Sorted.IsPermutation};
ghost use Rattle.std.specs.FinMap as map;
ghost use Rattle.stn_net.specs.Difference.{Difference};
ghost use Rattle.stn_records.specs.{Join.{GroupedTakes, contents_taken, outcome_of, passing, join_all, SameItems}, Id.{SiteCounter, id_cmp}, Maps.{HasEntry, join, same_units, union}, Content.{Content, IdSet, HasItem, CountsSame, is_known, is_limited, join_contents, known_count, live_of, plain, replaced_count, content_taken, with_amendment, with_record, with_tombstone}};

use crate::map_value::MapValue;

/// Takes of states, in any order and grouping, leave the join of their list, where that is there and
/// knows at most 4,096 ids; where it is not, one of the takes is refused. A list of states is given
/// by its first and the rest; each of them knows at most 4,096 ids.
pub fn takes_agree()
    ensures { (takes : GroupedTakes Content) (first : Content) (rest : List Content) → IsPermutation (contents_taken takes) (first ∷ rest) → All (λ state. is_limited state ≡ true) (first ∷ rest)
        → outcome_of content_taken takes ≡ option_and_then (passing is_limited) (join_all join_contents first rest) }
{}

/// Two lists of states with the same items, additions, withdrawals and replacements, have one join,
/// or none.
pub fn states_by_items_alone()
    ensures { (a b : Content) (ours theirs : List Content) → SameItems HasItem (a ∷ ours) (b ∷ theirs) → join_all join_contents a ours ≡ join_all join_contents b theirs }
{}

/// Two lists of maps with the same entries have one join, or none.
pub fn maps_by_items_alone<X: MapValue>()
    ensures { (a b : FinMap id_cmp X) (ours theirs : List (FinMap id_cmp X)) → SameItems HasEntry (a ∷ ours) (b ∷ theirs) → join_all (join X.same) a ours ≡ join_all (join X.same) b theirs }
{}

/// Two sets of withdrawn ids are never in dispute: their join is their union.
pub fn tombstones_agree()
    ensures { (a b : IdSet) → join same_units a b ≡ Some (union a b) }
{}

/// Two states with the same additions and the same replaced ids have the same live records and the
/// same known ids, and as many replaced ones: an amendment counts as its addition and the withdrawal
/// of the id that it replaces.
pub fn counts_same()
    ensures live { (a b : Content) → CountsSame a b → live_of a ≡ live_of b }
    ensures known { (a b : Content) → CountsSame a b → (id : SiteCounter) → is_known a id ≡ is_known b id }
    ensures count { (a b : Content) → CountsSame a b → known_count a ≡ known_count b }
    ensures replaced { (a b : Content) → CountsSame a b → replaced_count a ≡ replaced_count b }
    ensures amended { (s : Content) (id old : SiteCounter) (bound : Difference) → map.get s.replacements id ≡ None → CountsSame (with_amendment s id old bound) (with_tombstone (with_record s id (plain bound)) old) }
{}
