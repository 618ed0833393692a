//! Conditions and effects: conjunctions of literals with their times.

ghost use Rattle.std.specs.Prelude.{◌≡◌, IfOk, true};
ghost use Rattle.stn_text.specs.Faults.{Returns};
ghost use Rattle.stn_pddl.specs.{Tree.{Cursors.{row_at, IsPast}, Trees.Word}, Faults.is_memory, Words.head_of, Views.action_schema, declared.action.Form.TheVariants.{Plain, Timed}};
ghost use Rattle.stn_pddl.specs.Conditions as spec;

use crate::action::{Action, Form, Label, Side};
use crate::fault::DomainFault;
use crate::tree::{Child, Cursor, is_same_word};
use crate::word::{Head, head_of};
use std::alloc::Allocator;

fn is_effect(label: Label) -> bool
    ensures { result ≡ spec.is_effect label }
{
    match label {
        Label::StartCondition | Label::OverAll | Label::EndCondition => false,
        Label::StartEffect | Label::EndEffect => true,
    }
}

fn start_of(side: Side) -> Label
    ensures { result ≡ spec.start_label side }
{
    match side {
        Side::Condition => Label::StartCondition,
        Side::Effect => Label::StartEffect,
    }
}

fn end_of(side: Side) -> Label
    ensures { result ≡ spec.end_label side }
{
    match side {
        Side::Condition => Label::EndCondition,
        Side::Effect => Label::EndEffect,
    }
}

/// The label that `at` or `over` gives with the word after it.
fn label_of(side: Side, head: Head, word: &[u8]) -> Option<Label>
    ensures { result ≡ spec.label_of side head word.now }
{
    match (head, side) {
        (Head::At, _) if is_same_word(word, b"start") => Some(start_of(side)),
        (Head::At, _) if is_same_word(word, b"end") => Some(end_of(side)),
        (Head::Over, Side::Condition) if is_same_word(word, b"all") => Some(Label::OverAll),
        _ => None,
    }
}

fn equal_at(side: Side, line: u32) -> DomainFault
    ensures { result ≡ spec.equal_at side line }
{
    match side {
        Side::Condition => DomainFault::Syntax(line),
        Side::Effect => DomainFault::Unsupported(line),
    }
}

impl<'a, A: Allocator + Copy> Action<'a, A> {
    /// An equality on a line, which effects don't have.
    fn read_equal_tree(
        &self,
        label: Label,
        line: u32,
        children: Cursor<'a>,
    ) -> Result<Cursor<'a>, DomainFault>
        ensures given { Returns is_memory (λ _. action_schema self.now) result
            (spec.equal_tree label line (row_at children.entry) (action_schema self.now)) }
        ensures passed { IfOk result (IsPast children.entry) }
    {
        if is_effect(label) {
            return Err(DomainFault::Unsupported(line));
        }
        self.read_equality(line, children)
    }

    /// Takes up an atom or an equality, negated or not, in a list on a line, from the list's head on, and gives the place after
    /// the list.
    fn read_literal(
        &mut self,
        label: Label,
        negated: bool,
        line: u32,
        word: &'a [u8],
        rest: Cursor<'a>,
    ) -> Result<Cursor<'a>, DomainFault>
        ensures given { Returns is_memory (λ _. action_schema self.new) result
            (spec.literal label negated line word.now (row_at rest.entry) (action_schema self.old) (head_of word.now)) }
        ensures passed { IfOk result (IsPast rest.entry) }
    {
        match head_of(word) {
            Head::And | Head::Not | Head::OtherLogic => Err(DomainFault::Unsupported(line)),
            Head::Equal => self.read_equal_tree(label, line, rest),
            Head::NoName => Err(DomainFault::Syntax(line)),
            Head::At | Head::Over | Head::Name => self.read_atom(label, negated, word, rest),
        }
    }

    /// The list after `not`, on its own line.
    #[tactic(auto, using(crate::proofs::tree::Cursors::behind_rest), unfolding(crate::specs::Conditions::negated_tree))]
    fn read_negated_tree(
        &mut self,
        label: Label,
        line: u32,
        children: Cursor<'a>,
    ) -> Result<Cursor<'a>, DomainFault>
        ensures given { Returns is_memory (λ _. action_schema self.new) result
            (spec.negated_tree label line (row_at children.entry) (action_schema self.old)) }
        ensures passed { IfOk result (IsPast children.entry) }
    {
        let Child::Word(_, word, rest) = children.next_child() else {
            return Err(DomainFault::Syntax(line));
        };
        self.read_literal(label, true, line, word, rest)
    }

    /// What stands after `not`, in a list on a line.
    #[tactic(auto, unfolding(crate::specs::Conditions::negation))]
    fn read_negation(
        &mut self,
        label: Label,
        line: u32,
        children: Cursor<'a>,
    ) -> Result<Cursor<'a>, DomainFault>
        ensures given { Returns is_memory (λ _. action_schema self.new) result
            (spec.negation label line (row_at children.entry) (action_schema self.old)) }
        ensures passed { IfOk result (IsPast children.entry) }
    {
        if children.count_children() != 1 {
            return Err(DomainFault::Syntax(line));
        }
        match children.next_child() {
            Child::End(_) => Err(DomainFault::Syntax(line)),
            Child::Word(at, _, _) => Err(DomainFault::Syntax(at)),
            Child::Group(at, inside) => {
                let rest = self.read_negated_tree(label, at, inside)?;
                Ok(rest.skip())
            }
        }
    }

    /// Takes up a list on a line whose literals have one label, from its head on, and gives the place after the list.
    #[cycle(conditions)]
    #[tactic(auto, unfolding(crate::specs::Conditions::tree))]
    fn read_plain(
        &mut self,
        label: Label,
        line: u32,
        word: &'a [u8],
        rest: Cursor<'a>,
    ) -> Result<Cursor<'a>, DomainFault>
        ensures given { Returns is_memory (λ _. action_schema self.new) result
            (spec.tree (Plain label) line (Word line word.now (row_at rest.entry)) (action_schema self.old)) }
        ensures passed { IfOk result (IsPast rest.entry) }
    {
        match head_of(word) {
            Head::And => self.read_row(Form::Plain(label), rest),
            Head::Not => self.read_negation(label, line, rest),
            Head::Equal | Head::At | Head::Over | Head::OtherLogic | Head::Name | Head::NoName =>
                self.read_literal(label, false, line, word, rest),
        }
    }

    /// Takes up what stands after `at` or `over`, in a list on a line: a word that gives a label, and the tree that has it.
    #[cycle(conditions)]
    #[tactic(auto, using(crate::proofs::tree::Cursors::behind_rest), unfolding(crate::specs::Conditions::labelled))]
    fn read_labelled(
        &mut self,
        side: Side,
        head: Head,
        line: u32,
        children: Cursor<'a>,
    ) -> Result<Cursor<'a>, DomainFault>
        ensures given { Returns is_memory (λ _. action_schema self.new) result
            (spec.labelled side head line (row_at children.entry) (action_schema self.old)) }
        ensures passed { IfOk result (IsPast children.entry) }
    {
        let Child::Word(_, word, rest) = children.next_child() else {
            return Err(DomainFault::Syntax(line));
        };
        match label_of(side, head, word) {
            Some(label) if rest.count_children() == 1 => self.read_row(Form::Plain(label), rest),
            _ => Err(DomainFault::Syntax(line)),
        }
    }

    /// Takes up a list on a line whose literals have each its time, from its head on, and gives the place after the list.
    #[cycle(conditions)]
    #[tactic(auto, unfolding(crate::specs::Conditions::tree))]
    fn read_timed(
        &mut self,
        side: Side,
        line: u32,
        word: &'a [u8],
        rest: Cursor<'a>,
    ) -> Result<Cursor<'a>, DomainFault>
        ensures given { Returns is_memory (λ _. action_schema self.new) result
            (spec.tree (Timed side) line (Word line word.now (row_at rest.entry)) (action_schema self.old)) }
        ensures passed { IfOk result (IsPast rest.entry) }
    {
        match head_of(word) {
            Head::And => self.read_row(Form::Timed(side), rest),
            Head::At => self.read_labelled(side, Head::At, line, rest),
            Head::Over => self.read_labelled(side, Head::Over, line, rest),
            Head::OtherLogic => Err(DomainFault::Unsupported(line)),
            Head::Equal => Err(equal_at(side, line)),
            Head::Not | Head::NoName | Head::Name => Err(DomainFault::Syntax(line)),
        }
    }

    /// Takes up the lists of a row, and gives the place after the row.
    #[cycle(conditions)]
    #[tactic(auto, using(stn_text::proofs::Readings::fails_first), unfolding(crate::specs::Conditions::row))]
    fn read_row(&mut self, form: Form, children: Cursor<'a>) -> Result<Cursor<'a>, DomainFault>
        ensures given { Returns is_memory (λ _. action_schema self.new) result
            (spec.row form (row_at children.entry) (action_schema self.old)) }
        ensures passed { IfOk result (IsPast children.entry) }
    {
        let mut cursor = children;
        'trees: loop {
            match cursor.next_child() {
                Child::End(behind) => return Ok(behind),
                Child::Word(line, _, _) => return Err(DomainFault::Syntax(line)),
                Child::Group(line, inside) => {
                    cursor = self.read_tree(form, line, inside)?;
                }
            }
        }
    }

    /// Takes up a list on a line, and gives the place after the list.
    #[cycle(conditions)]
    #[tactic(auto, using(crate::proofs::tree::Cursors::behind_rest), unfolding(crate::specs::Conditions::tree))]
    pub(crate) fn read_tree(
        &mut self,
        form: Form,
        line: u32,
        children: Cursor<'a>,
    ) -> Result<Cursor<'a>, DomainFault>
        ensures given { Returns is_memory (λ _. action_schema self.new) result
            (spec.tree form line (row_at children.entry) (action_schema self.old)) }
        ensures passed { IfOk result (IsPast children.entry) }
    {
        match children.next_child() {
            Child::End(behind) => Ok(behind),
            Child::Group(_, _) => Err(DomainFault::Syntax(line)),
            Child::Word(_, word, rest) => match form {
                Form::Plain(label) => self.read_plain(label, line, word, rest),
                Form::Timed(side) => self.read_timed(side, line, word, rest),
            },
        }
    }
}
