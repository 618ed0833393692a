//! The numbering of ground atoms.

ghost use Rattle.std.specs.{Prelude.{◌≡◌, ◌++◌, List, map, length, slice_get, Some, IfOk, OnOk}, List.AllByRecursion};
ghost use Rattle.stn_pddl.specs.{Tree.Names.folded, Sound.{IsSoundTerm, IsSoundAtom}, Views.{term_schema, atom_schema, atoms_schema}};
ghost use Rattle.stn_lift.specs.{Plan.Views.word_of, Footprints.{GroundAtom, term_name, ground}, Numbering.{KeepsNumbers, IsUnambiguous, IsNameAt, IsNumberOf, AreNumbersOf}};

use crate::numbers::Numbers;
use indexmap::IndexSet;
use std::alloc::{AllocError, Allocator};
use std::hash::{BuildHasherDefault, FoldHasher};
use std::marker::Model;
use stn_pddl::{Atom, Name, Names, Term};

/// Ground atoms so far, each with a number of its own.
#[derive(Drop)]
pub struct Atoms<'a, A: Allocator> {
    alloc: A,
    names: Names<'a, A>,
    // Each atom by the numbers of its names.
    spellings: IndexSet<Vec<usize, A>, BuildHasherDefault<FoldHasher>, A>,
}

impl<'a, A: Allocator> Model for Atoms<'a, A> {
    ghost use Rattle.std.specs.Prelude.{map};
    ghost use Rattle.stn_lift.specs.{Numbering.{Numbering, IsUnambiguous}, AtomViews.{folded_name, spelling_of}};

    ghost Value = { Numbering };

    ghost view = { λ a. record { names = map folded_name a.names.keys; spellings = map spelling_of a.spellings.keys } };

    ghost invariant = { λ a. IsUnambiguous (record { names = map folded_name a.names.keys; spellings = map spelling_of a.spellings.keys }) };
}

// The name that a term stands for in a step with these arguments.
fn name_of<'a>(args: &[&'a [u8]], term: Term<'a>) -> Name<'a>
    requires { IsSoundTerm (length args.now) (term_schema term) }
    ensures { result.bytes.now ≡ term_name (map word_of args.now) (term_schema term.entry) }
{
    match term {
        Term::Parameter(place) => Name { bytes: args[place] },
        Term::Constant(name) => name,
    }
}

impl<'a, A: Allocator + Copy> Atoms<'a, A> {
    /// No atoms.
    pub fn new(alloc: A) -> Atoms<'a, A>
        ensures { IsUnambiguous result }
    {
        Atoms {
            alloc,
            names: IndexSet::new(alloc),
            spellings: IndexSet::new(alloc),
        }
    }

    // The number of a name.
    fn number_name(&mut self, name: Name<'a>) -> Result<usize, AllocError>
        ensures number { IfOk result (λ number. IsNameAt self.new.names number (folded name.entry.bytes.now)) }
        ensures kept { OnOk result (KeepsNumbers self.old self.new) }
    {
        let (number, _) = self.names.insert_full(name)?;
        Ok(number)
    }

    // The number of an atom that is spelt so.
    fn number_spelling(&mut self, spelling: Vec<usize, A>) -> Result<usize, AllocError>
        ensures number { IfOk result (λ number. slice_get self.new.spellings number ≡ Some spelling.items) }
        ensures kept { OnOk result (KeepsNumbers self.old self.new) }
    {
        let (number, _) = self.spellings.insert_full(spelling)?;
        Ok(number)
    }

    // The number of an atom in a step with these arguments.
    fn number_atom(&mut self, args: &[&'a [u8]], atom: &Atom<'a, A>) -> Result<usize, AllocError>
        requires { IsSoundAtom (length args.now) (atom_schema atom.now) }
        ensures number { IfOk result (λ number. IsNumberOf self.new number (ground (map word_of args.now) (atom_schema atom.now))) }
        ensures kept { OnOk result (KeepsNumbers self.old self.new) }
    {
        let mut spelling = Vec::new(self.alloc);
        let predicate = self.number_name(atom.predicate)?;
        spelling.push(predicate)?;
        for term in &atom.terms {
            let number = self.number_name(name_of(args, *term))?;
            spelling.push(number)?;
        }
        let number = self.number_spelling(spelling)?;
        Ok(number)
    }

    // Appends the numbers of atoms in a step with these arguments.
    fn append_numbers(
        &mut self,
        args: &[&'a [u8]],
        atoms: &[Atom<'a, A>],
        numbers: &mut Vec<usize, A>,
    ) -> Result<(), AllocError>
        requires { AllByRecursion (IsSoundAtom (length args.now)) (atoms_schema atoms.now) }
        ensures numbers { OnOk result ((before : List GroundAtom) → AreNumbersOf self.old numbers.old.items before
            → AreNumbersOf self.new numbers.new.items (before ++ map (ground (map word_of args.now)) (atoms_schema atoms.now))) }
        ensures kept { OnOk result (KeepsNumbers self.old self.new) }
    {
        for atom in atoms {
            let number = self.number_atom(args, atom)?;
            numbers.push(number)?;
        }
        Ok(())
    }

    /// The numbers of two lists of atoms in a step with these arguments.
    pub fn numbers(
        &mut self,
        args: &[&'a [u8]],
        atoms: &[Atom<'a, A>],
        more: &[Atom<'a, A>],
    ) -> Result<Numbers<A>, AllocError>
        requires atoms { AllByRecursion (IsSoundAtom (length args.now)) (atoms_schema atoms.now) }
        requires more { AllByRecursion (IsSoundAtom (length args.now)) (atoms_schema more.now) }
        ensures numbers { IfOk result (λ numbers. AreNumbersOf self.new numbers
            (map (ground (map word_of args.now)) (atoms_schema atoms.now ++ atoms_schema more.now))) }
        ensures kept { OnOk result (KeepsNumbers self.old self.new) }
        ensures unambiguous { OnOk result (IsUnambiguous self.new) }
    {
        let mut numbers = Vec::new(self.alloc);
        self.append_numbers(args, atoms, &mut numbers)?;
        self.append_numbers(args, more, &mut numbers)?;
        let _ = &self.names;
        Ok(Numbers::sorted(numbers))
    }
}
