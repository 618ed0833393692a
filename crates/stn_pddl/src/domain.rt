//! Whole domains.

ghost use Rattle.std.specs.{Prelude.{◌≡◌, ◌≤◌, [], false, length, pos, IfOk, IfErr, IfSome, IsErrOf, IsOk, MatchOption, Some, None, Ok, Err}, Option.option_map};
ghost use Rattle.stn_text.specs.Faults.{Returns, ◌>>=◌ as ◌and_then◌};
ghost use Rattle.stn_pddl.specs.{Tree.{Cursors.row_at, Scan.{most_text, tree_of}}, Faults.is_memory, Causes.IsDomainCause, Domains.{part, parts, is_title, root, domain_of_tree, domain_of, action_named}, Sound.IsSound, Schemas.bare_action, Views.{action_schema, bytes_of_name}, declared.action.Side.TheVariants.{Condition, Effect}, FieldViews.{listing_of, values_of}};
ghost use Rattle.stn_pddl.specs.Actions as rule;

use crate::action::{Action, Form, Side};
use crate::actions::Actions;
use crate::fault::DomainFault;
use crate::fields::{Listing, Values, read_duration, read_parameters};
use crate::tree::{Child, Cursor, Name, is_same_word};
use crate::word::{Section, is_name, section_of};
use std::alloc::Allocator;
use std::marker::Model;

/// A domain read from a text, which it borrows.
#[derive(Drop)]
pub struct Domain<'a, A: Allocator> {
    text: &'a [u8],
    actions: Actions<'a, A>,
}

impl<'a, A: Allocator> Model for Domain<'a, A> {
    ghost use Rattle.stn_pddl.specs.Domains.{DomainSchema};

    ghost Value = { DomainSchema };

    ghost view = { λ domain. record { text = domain.text.now; actions = domain.actions } };

    ghost use Rattle.stn_pddl.specs.Sound.{IsDomain};

    ghost invariant = { λ domain. IsDomain (record { text = domain.text.now; actions = domain.actions }) };
}

/// Takes up the value of `:condition` or `:effect`, where there is one.
#[tactic(auto, unfolding(crate::specs::Actions::timed_value))]
fn read_timed_value<'a, A: Allocator + Copy>(
    side: Side,
    value: Option<Listing<'a>>,
    action: &mut Action<'a, A>,
) -> Result<(), DomainFault>
    ensures { Returns is_memory (λ _. action_schema action.new) result
        (rule.timed_value side (option_map listing_of value.entry) (action_schema action.old)) }
{
    if let Some(listing) = value {
        action.read_tree(Form::Timed(side), listing.line, listing.inside)?;
    }
    Ok(())
}

/// Takes up the values of `:condition` and `:effect`.
fn read_sides<'a, A: Allocator + Copy>(
    values: Values<'a>,
    action: &mut Action<'a, A>,
) -> Result<(), DomainFault>
    ensures { Returns is_memory (λ _. action_schema action.new) result
        (rule.timed_value Condition (values_of values.entry).condition (action_schema action.old)
        and_then rule.timed_value Effect (values_of values.entry).effect) }
{
    read_timed_value(Side::Condition, values.condition, action)?;
    read_timed_value(Side::Effect, values.effect, action)
}

/// Takes up the values of an action that has none, in their order.
#[tactic(auto, using(stn_text::proofs::Readings::fails_first), unfolding(crate::specs::Views::action_schema, crate::specs::Actions::action_of_lists))]
fn read_values<'a, A: Allocator + Copy>(
    parameters: Listing<'a>,
    duration: Listing<'a>,
    values: Values<'a>,
    action: &mut Action<'a, A>,
) -> Result<(), DomainFault>
    requires { action_schema action.old ≡ bare_action (action_schema action.old).name [] (pos 0) }
    ensures { Returns is_memory (λ _. action_schema action.new) result
        (rule.action_of_lists (action_schema action.old).name (listing_of parameters.entry) (listing_of duration.entry) (values_of values.entry)) }
{
    read_parameters(parameters.inside, &mut action.parameters)?;
    action.duration = read_duration(duration.line, duration.inside)?;
    read_sides(values, action)
}

/// Takes up the fields of an action that has none, on a line.
#[tactic(auto, unfolding(crate::specs::Actions::named_action))]
fn read_fields<'a, A: Allocator + Copy>(
    line: u32,
    children: Cursor<'a>,
    action: &mut Action<'a, A>,
) -> Result<(), DomainFault>
    requires { action_schema action.old ≡ bare_action (action_schema action.old).name [] (pos 0) }
    ensures { Returns is_memory (λ _. action_schema action.new) result
        (rule.named_action line (action_schema action.old).name (row_at children.entry)) }
{
    let values = Values::read(children)?;
    let Some(parameters) = values.parameters else {
        return Err(DomainFault::Syntax(line));
    };
    let Some(duration) = values.duration else {
        return Err(DomainFault::Syntax(line));
    };
    read_values(parameters, duration, values, action)
}

/// The name of an action on a line, which no earlier one has, and the place after it.
#[tactic(auto, unfolding(crate::specs::Actions::action))]
fn read_name<'a, A: Allocator + Copy>(
    line: u32,
    children: Cursor<'a>,
    earlier: &Actions<'a, A>,
) -> Result<(Name<'a>, Cursor<'a>), DomainFault>
    ensures named { IfOk result (λ found. rule.action line (row_at children.entry) earlier.now
        ≡ rule.named_action line (bytes_of_name found.0) (row_at found.1)) }
    ensures new { IfOk result (λ found. rule.is_taken (bytes_of_name found.0) earlier.now ≡ false) }
    ensures fault { IfErr result (λ fault. rule.action line (row_at children.entry) earlier.now ≡ Err fault) }
{
    let Child::Word(at, word, rest) = children.next_child() else {
        return Err(DomainFault::Syntax(line));
    };
    if !is_name(word) {
        return Err(DomainFault::Syntax(line));
    }
    let name = Name { bytes: word };
    if earlier.is_taken(name) {
        return Err(DomainFault::Twice(at));
    }
    Ok((name, rest))
}

/// An action on a line, from what stands after its head.
#[tactic(auto, using(stn_text::proofs::Readings::fails_as_meant))]
fn read_action<'a, A: Allocator + Copy>(
    alloc: A,
    line: u32,
    children: Cursor<'a>,
    earlier: &Actions<'a, A>,
) -> Result<Action<'a, A>, DomainFault>
    ensures given { Returns is_memory action_schema result (rule.action line (row_at children.entry) earlier.now) }
    ensures new { IfOk result (λ action. rule.is_taken (action_schema action).name earlier.now ≡ false) }
{
    let (name, rest) = read_name(line, children, earlier)?;
    let mut action = Action::bare(alloc, name);
    read_fields(line, rest, &mut action).and(Ok(action))
}

/// One part of a domain, a list on a line.
#[tactic(auto, using(stn_text::proofs::Readings::fails_first), unfolding(crate::specs::Domains::part))]
fn read_part<'a, A: Allocator + Copy>(
    alloc: A,
    line: u32,
    children: Cursor<'a>,
    actions: &mut Actions<'a, A>,
) -> Result<(), DomainFault>
    ensures { Returns is_memory (λ _. actions.new) result (part line (row_at children.entry) actions.old) }
{
    let Child::Word(_, word, rest) = children.next_child() else {
        return Err(DomainFault::Syntax(line));
    };
    match section_of(word) {
        Section::Skipped => Ok(()),
        Section::Action => {
            let action = read_action(alloc, line, rest, actions)?;
            actions.push(action)?;
            Ok(())
        }
        Section::Unknown => Err(DomainFault::Unsupported(line)),
        Section::NoSection => Err(DomainFault::Syntax(line)),
    }
}

/// The actions of the parts of a domain, in a row.
#[tactic(auto, unfolding(crate::specs::Domains::parts))]
fn read_parts<'a, A: Allocator + Copy>(
    alloc: A,
    children: Cursor<'a>,
) -> Result<Actions<'a, A>, DomainFault>
    ensures { Returns is_memory (λ actions. actions) result (parts (row_at children.entry) []) }
{
    let mut actions = Actions::new(alloc);
    let mut cursor = children;
    'parts: loop {
        match cursor.next_child() {
            Child::End(_) => return Ok(actions),
            Child::Word(line, _, _) => return Err(DomainFault::Syntax(line)),
            Child::Group(line, inside) => {
                read_part(alloc, line, inside, &mut actions)?;
                cursor = inside.skip();
            }
        }
    }
}

/// Whether a row is the word `domain` and a name.
#[tactic(auto, unfolding(crate::specs::Domains::is_title))]
fn is_title(children: Cursor<'_>) -> bool
    ensures { result ≡ is_title (row_at children.entry) }
{
    let Child::Word(_, domain, rest) = children.next_child() else {
        return false;
    };
    let Child::Word(_, name, rest) = rest.next_child() else {
        return false;
    };
    let Child::End(_) = rest.next_child() else {
        return false;
    };
    is_same_word(domain, b"domain") && is_name(name)
}

/// The actions of the list of a whole domain, on a line.
#[tactic(auto, unfolding(crate::specs::Domains::root))]
fn read_root<'a, A: Allocator + Copy>(
    alloc: A,
    line: u32,
    children: Cursor<'a>,
) -> Result<Actions<'a, A>, DomainFault>
    ensures { Returns is_memory (λ actions. actions) result (root line (row_at children.entry)) }
{
    let Child::Word(_, define, rest) = children.next_child() else {
        return Err(DomainFault::Syntax(line));
    };
    let Child::Group(_, title) = rest.next_child() else {
        return Err(DomainFault::Syntax(line));
    };
    if is_same_word(define, b"define") && is_title(title) {
        read_parts(alloc, title.skip())
    } else {
        Err(DomainFault::Syntax(line))
    }
}

/// The actions of a text.
#[tactic(auto, unfolding(crate::specs::Domains::domain_of, crate::specs::Domains::domain_of_tree))]
fn read_actions<'a, A: Allocator + Copy>(
    alloc: A,
    text: &'a [u8],
) -> Result<Actions<'a, A>, DomainFault>
    ensures given { Returns is_memory (λ actions. actions) result (domain_of text.now) }
    ensures memory { IsErrOf result DomainFault.Memory → IsOk (tree_of text.now) }
{
    match crate::tree::start(text)?.next_child() {
        Child::End(_) => Err(DomainFault::Syntax(1)),
        Child::Word(line, _, _) => Err(DomainFault::Syntax(line)),
        Child::Group(line, children) => read_root(alloc, line, children),
    }
}

impl<'a, A: Allocator + Copy> Domain<'a, A> {
    /// Reads a text. The first fault is the answer: `TooLong`; else the first of its bytes, `Syntax` or `TooDeep`; else the first of
    /// its forms, `Syntax`, `Unsupported`, `Number`, `Twice` or `Variable`. Only a fault of a form, and a domain, take memory: `Memory` may
    /// come in their place.
    #[tactic(auto, using(crate::proofs::Causes::cause_of))]
    pub fn read(alloc: A, text: &'a [u8]) -> Result<Domain<'a, A>, DomainFault>
        // The domain that the text means, or its first fault.
        ensures given { Returns is_memory (λ domain. domain.actions) result (domain_of text.now) }
        ensures text { IfOk result (λ domain. domain.text ≡ text.now) }

        // The text is too long, or its bytes have the fault, or it does not begin as a domain does, or the first part with a fault has it.
        ensures cause { IfErr result (IsDomainCause text.now) }
        ensures memory { IsErrOf result DomainFault.Memory → IsOk (tree_of text.now) }
    {
        let actions = read_actions(alloc, text)?;
        Ok(Domain { text, actions })
    }

    /// The text that was read.
    pub fn text(&self) -> &'a [u8]
        ensures text { result.now ≡ self.now.text }
        ensures short { length result.now ≤ most_text }

        // The text gives the actions.
        ensures given { domain_of result.now ≡ Ok self.now.actions }
    {
        self.text
    }

    /// The action of a name, without regard to ASCII case.
    pub fn action(&self, name: &'a [u8]) -> Option<&Action<'a, A>>
        ensures found { MatchOption result
            (action_named name.now self.now.actions ≡ None)
            (λ action. action_named name.now self.now.actions ≡ Some (action_schema action.now)) }

        // Its parameters are in range, and its duration is not negative.
        ensures sound { IfSome result (λ action. IsSound (action_schema action.now)) }
    {
        self.actions.get(Name { bytes: name })
    }
}
