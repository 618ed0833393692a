//! Durative actions.

ghost use Rattle.std.specs.Prelude.{◌≡◌, [], pos, IfOk};
ghost use Rattle.stn_pddl.specs.{Schemas.{bare_action, with_literal}, Views.{action_schema, atom_schema, bytes_of_name}};

use crate::tree::Name;
use indexmap::IndexSet;
use std::alloc::{AllocError, Allocator};
use std::hash::{BuildHasherDefault, FoldHasher};
use stn_time::Ms;

/// Names in their order, each once.
pub type Names<'a, A> = IndexSet<Name<'a>, BuildHasherDefault<FoldHasher>, A>;

/// A term of an atom.
#[derive(Clone, Copy)]
pub enum Term<'a> {
    /// A parameter of the action, by its place from 0 on.
    Parameter(usize),
    /// A constant of the domain.
    Constant(Name<'a>),
}

/// A predicate and its terms.
#[derive(Drop)]
pub struct Atom<'a, A: Allocator> {
    /// The name of the predicate.
    pub predicate: Name<'a>,
    /// The terms in their order.
    pub terms: Vec<Term<'a>, A>,
}

/// A durative action of a domain. Its conditions and effects are lists of atoms in the order of the text.
#[derive(Drop)]
pub struct Action<'a, A: Allocator> {
    /// The name, which no other action of the domain has.
    pub name: Name<'a>,
    /// The parameters, each with its `?`, without their types.
    pub parameters: Names<'a, A>,
    /// The duration, at least 0.
    pub duration: Ms,
    /// The atoms of the conditions `at start`, negated or not.
    pub start_needs: Vec<Atom<'a, A>, A>,
    /// The atoms of the conditions `over all`, negated or not.
    pub all_needs: Vec<Atom<'a, A>, A>,
    /// The atoms of the conditions `at end`, negated or not.
    pub end_needs: Vec<Atom<'a, A>, A>,
    /// The atoms that become true at the start.
    pub start_adds: Vec<Atom<'a, A>, A>,
    /// The atoms that become false at the start.
    pub start_deletes: Vec<Atom<'a, A>, A>,
    /// The atoms that become true at the end.
    pub end_adds: Vec<Atom<'a, A>, A>,
    /// The atoms that become false at the end.
    pub end_deletes: Vec<Atom<'a, A>, A>,
}

/// Conditions or effects.
#[derive(Clone, Copy)]
pub enum Side {
    Condition,
    Effect,
}

/// When a condition holds or an effect comes.
#[derive(Clone, Copy)]
pub enum Label {
    StartCondition,
    OverAll,
    EndCondition,
    StartEffect,
    EndEffect,
}

/// Whether the literals of a conjunction have one label, or each its own.
#[derive(Clone, Copy)]
pub enum Form {
    Plain(Label),
    Timed(Side),
}

impl<'a, A: Allocator + Copy> Action<'a, A> {
    /// An action without parameters, conditions and effects, of no duration.
    #[tactic(auto, unfolding(crate::specs::Views::action_schema))]
    pub(crate) fn bare(alloc: A, name: Name<'a>) -> Action<'a, A>
        ensures { action_schema result ≡ bare_action (bytes_of_name name.entry) [] (pos 0) }
    {
        Action {
            name,
            parameters: IndexSet::new(alloc),
            duration: Ms::new(0).unwrap(),
            start_needs: Vec::new(alloc),
            all_needs: Vec::new(alloc),
            end_needs: Vec::new(alloc),
            start_adds: Vec::new(alloc),
            start_deletes: Vec::new(alloc),
            end_adds: Vec::new(alloc),
            end_deletes: Vec::new(alloc),
        }
    }

    /// Takes an atom up as a condition or an effect.
    #[tactic(auto, unfolding(crate::specs::Views::action_schema, crate::specs::Schemas::with_literal))]
    pub(crate) fn push_literal(
        &mut self,
        label: Label,
        negated: bool,
        atom: Atom<'a, A>,
    ) -> Result<(), AllocError>
        ensures { IfOk result (λ _. action_schema self.new ≡ with_literal label negated (atom_schema atom.entry) (action_schema self.old)) }
    {
        let pushed = match label {
            Label::StartCondition => self.start_needs.push(atom),
            Label::OverAll => self.all_needs.push(atom),
            Label::EndCondition => self.end_needs.push(atom),
            Label::StartEffect if negated => self.start_deletes.push(atom),
            Label::StartEffect => self.start_adds.push(atom),
            Label::EndEffect if negated => self.end_deletes.push(atom),
            Label::EndEffect => self.end_adds.push(atom),
        };
        pushed?;
        Ok(())
    }
}
