//! Laws of trees, each the contract of a function that does nothing.

ghost use Rattle.std.specs.Prelude.{◌≡◌, ℕ, ◌≤◌, List, length, Ok, Err};
ghost use Rattle.stn_pddl.specs.{declared.tree.scan.TreeFault.TreeFault, Tree.{Trees.{Trees, End, Group}, Scan.{most_depth, most_text, tree_of}, Names.folded, FirstFault.IsFirstFault}};
ghost use Rattle.stn_plan_laws.specs.Tree.{Case.tree_in_small, Written.{written, IsWritable}};

/// The law that a text which is not too long has its first fault at the first byte after which no text can go on, whatever
/// follows there, or at an end that comes too early.
pub fn first_fault()
    ensures { (text : List ℕ) (fault : TreeFault) → tree_of text ≡ Err fault → length text ≤ most_text → IsFirstFault text fault }
{}

/// The law that a list which is written, with no more than 32 open brackets and 65,536 bytes, reads as that list, and that each
/// tree of a text can be written.
#[tactic(auto, using(crate::proofs::trees::Written::written_read, crate::proofs::trees::Writable::all_writable))]
pub fn written_reads()
    ensures reads { (line : ℕ) (children : Trees) → IsWritable most_depth 1 (Group line children End) → length (written 1 (Group line children End)) ≤ most_text
        → tree_of (written 1 (Group line children End)) ≡ Ok (Group line children End) }
    ensures writable { (text : List ℕ) (row : Trees) → tree_of text ≡ Ok row → IsWritable most_depth 1 row }
{}

/// The law that the case of letters changes only the words: a text in small letters has the tree of the text with its words in
/// small letters, or the same fault.
#[tactic(auto, using(crate::proofs::trees::Case::small_tree))]
pub fn small_letters()
    ensures { (text : List ℕ) → tree_of (folded text) ≡ tree_in_small (tree_of text) }
{}
