//! The actions of a domain by name.

ghost use Rattle.std.specs.{Prelude.{◌≡◌, ◌++◌, ◌∷◌, [], false, IfOk, OnOk, OnErr, MatchOption, Some, None}, Map.lookup};
ghost use Rattle.stn_pddl.specs.{Tree.Names.is_same_word, Actions.is_taken, Domains.action_named, Views.{action_schema, bytes_of_name}};

use crate::action::Action;
use crate::tree::Name;
use indexmap::IndexMap;
use std::alloc::{AllocError, Allocator};
use std::hash::{BuildHasherDefault, FoldHasher};
use std::marker::Model;

/// Values by name, in their order.
type ByName<'a, T, A> = IndexMap<Name<'a>, T, BuildHasherDefault<FoldHasher>, A>;

/// Actions in their order, each with a name of its own.
#[derive(Drop)]
pub struct Actions<'a, A: Allocator> {
    by_name: ByName<'a, Action<'a, A>, A>,
}

impl<'a, A: Allocator> Model for Actions<'a, A> {
    ghost use Rattle.std.specs.Prelude.{List};
    ghost use Rattle.stn_pddl.specs.Schemas.{ActionSchema};

    ghost Value = { List ActionSchema };

    ghost use Rattle.stn_pddl.specs.Views.{entries_schema, AreNamed};

    ghost view = { λ actions. entries_schema actions.by_name.entries };

    ghost invariant = { λ actions. AreNamed actions.by_name.entries };
}

impl<'a, A: Allocator + Copy> Actions<'a, A> {
    /// No actions.
    pub fn new(alloc: A) -> Actions<'a, A>
        ensures { result ≡ [] }
    {
        Actions {
            by_name: IndexMap::new(alloc),
        }
    }

    /// Whether the name is that of an action.
    pub fn is_taken(&self, name: Name<'a>) -> bool
        ensures { result ≡ is_taken name.entry.bytes.now self.now }
    {
        self.by_name.contains_key(&name)
    }

    /// Takes an action up after the others.
    pub fn push(&mut self, action: Action<'a, A>) -> Result<(), AllocError>
        requires { is_taken (action_schema action).name self.old ≡ false }
        ensures { IfOk result (λ _. self.new ≡ self.old ++ action_schema action.entry ∷ []) }
    {
        insert_new(&mut self.by_name, action.name, action)
    }

    /// The action of a name.
    pub fn get(&self, name: Name<'a>) -> Option<&Action<'a, A>>
        ensures { MatchOption result
            (action_named name.entry.bytes.now self.now ≡ None)
            (λ action. action_named name.entry.bytes.now self.now ≡ Some (action_schema action.now)) }
    {
        self.by_name.get(&name)
    }
}

/// Takes up a value after the others, by a name that none of them has.
fn insert_new<'a, T: Drop, A: Allocator>(
    by_name: &mut ByName<'a, T, A>,
    name: Name<'a>,
    value: T,
) -> Result<(), AllocError>
    requires { lookup (λ other. is_same_word (bytes_of_name name) (bytes_of_name other)) by_name.old.entries ≡ None }
    ensures added { OnOk result (by_name.new.entries ≡ by_name.old.entries ++ (name.entry, value) ∷ []) }
    ensures kept { OnErr result (by_name.new.entries ≡ by_name.old.entries) }
{
    by_name.insert(name, value)?;
    Ok(())
}
