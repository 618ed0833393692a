//! Terms, atoms and equalities.

ghost use Rattle.std.specs.Prelude.{[], IfOk};
ghost use Rattle.stn_text.specs.Faults.{Returns};
ghost use Rattle.stn_pddl.specs.{Tree.Cursors.{row_at, IsPast}, Faults.is_memory, Views.{term_schema, terms_schema, words_of, action_schema}};
ghost use Rattle.stn_pddl.specs.Atoms as spec;

use crate::action::{Action, Atom, Label, Names, Term};
use crate::fault::DomainFault;
use crate::tree::{Child, Cursor, Name};
use crate::word::{is_key, is_variable};
use std::alloc::{AllocError, Allocator};

/// A term that is a word on a line.
#[tactic(auto, unfolding(crate::specs::Atoms::term))]
fn read_term<'a, A: Allocator + Copy>(
    parameters: &Names<'a, A>,
    line: u32,
    word: &'a [u8],
) -> Result<Term<'a>, DomainFault>
    ensures { Returns is_memory term_schema result (spec.term (words_of parameters.now.keys) line word.now) }
{
    let name = Name { bytes: word };
    if is_variable(word) {
        match parameters.get_index_of(&name) {
            Some(place) => Ok(Term::Parameter(place)),
            None => Err(DomainFault::Variable(line)),
        }
    } else if is_key(word) {
        Err(DomainFault::Syntax(line))
    } else {
        Ok(Term::Constant(name))
    }
}

/// The terms of a row, and the place after the row.
#[tactic(auto, unfolding(crate::specs::Atoms::terms))]
fn read_terms<'a, A: Allocator + Copy>(
    alloc: A,
    parameters: &Names<'a, A>,
    children: Cursor<'a>,
) -> Result<(Vec<Term<'a>, A>, Cursor<'a>), DomainFault>
    ensures given { Returns is_memory (λ found. terms_schema found.0.items) result
        (spec.terms (words_of parameters.now.keys) (row_at children.entry) []) }
    ensures passed { IfOk result (λ found. IsPast children.entry found.1) }
{
    let mut terms = Vec::new(alloc);
    let mut cursor = children;
    'terms: loop {
        match cursor.next_child() {
            Child::End(behind) => return Ok((terms, behind)),
            Child::Group(line, _) => return Err(DomainFault::Unsupported(line)),
            Child::Word(line, word, rest) => {
                let term = read_term(parameters, line, word)?;
                terms.push(term).map_err(AllocError::from)?;
                cursor = rest;
            }
        }
    }
}

impl<'a, A: Allocator + Copy> Action<'a, A> {
    /// Takes up the atom of a predicate whose terms stand in a row, and gives the place after the row.
    #[tactic(auto, unfolding(crate::specs::Atoms::atom, crate::specs::Views::action_schema))]
    pub(crate) fn read_atom(
        &mut self,
        label: Label,
        negated: bool,
        predicate: &'a [u8],
        children: Cursor<'a>,
    ) -> Result<Cursor<'a>, DomainFault>
        ensures given { Returns is_memory (λ _. action_schema self.new) result
            (spec.atom label negated predicate.now (row_at children.entry) (action_schema self.old)) }
        ensures passed { IfOk result (IsPast children.entry) }
    {
        let (terms, rest) = read_terms(*self.start_needs.allocator(), &self.parameters, children)?;
        let predicate = Name { bytes: predicate };
        self.push_literal(label, negated, Atom { predicate, terms })?;
        Ok(rest)
    }

    /// Reads the terms of an equality on a line, and gives the place after them.
    #[tactic(auto, using(stn_text::proofs::Readings::fails_first), unfolding(crate::specs::Atoms::equality, crate::specs::Views::action_schema))]
    pub(crate) fn read_equality(
        &self,
        line: u32,
        children: Cursor<'a>,
    ) -> Result<Cursor<'a>, DomainFault>
        ensures given { Returns is_memory (λ _. action_schema self.now) result
            (spec.equality line (row_at children.entry) (action_schema self.now)) }
        ensures passed { IfOk result (IsPast children.entry) }
    {
        if children.count_children() != 2 {
            return Err(DomainFault::Syntax(line));
        }
        let (_, rest) = read_terms(*self.start_needs.allocator(), &self.parameters, children)?;
        Ok(rest)
    }
}
