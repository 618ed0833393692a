//! The keys of an action with their values, its parameters and its duration.

ghost use Rattle.std.specs.Prelude.{◌≡◌};
ghost use Rattle.stn_text.specs.Faults.{Returns};
ghost use Rattle.stn_pddl.specs.{Tree.Cursors.row_at, Faults.is_memory, Views.words_of};
ghost use Rattle.stn_pddl.specs.Fields as spec;

use crate::action::Names;
use crate::fault::DomainFault;
use crate::tree::{Child, Cursor, Name, is_same_word};
use crate::word::{Field, Item, Key, item_of, key_of};
use std::alloc::Allocator;
use stn_time::Ms;

/// Takes up the parameters of a row after those that stood before.
#[tactic(auto, unfolding(crate::specs::Fields::parameters, crate::specs::Fields::parameters_behind_type))]
pub fn read_parameters<'a, A: Allocator + Copy>(
    children: Cursor<'a>,
    names: &mut Names<'a, A>,
) -> Result<(), DomainFault>
    ensures { Returns is_memory (λ _. words_of names.new.keys) result
        (spec.parameters (row_at children.entry) (words_of names.old.keys)) }
{
    let mut cursor = children;
    'parameters: loop {
        match cursor.next_child() {
            Child::End(_) => return Ok(()),
            Child::Group(line, _) => return Err(DomainFault::Syntax(line)),
            Child::Word(line, word, rest) => match item_of(word) {
                Item::Parameter => {
                    let Ok((_, is_new)) = names.insert_full(Name { bytes: word }) else {
                        return Err(DomainFault::Memory);
                    };
                    if !is_new {
                        return Err(DomainFault::Twice(line));
                    }
                    cursor = rest;
                }
                Item::Dash => match rest.next_child() {
                    Child::End(_) => return Err(DomainFault::Syntax(line)),
                    Child::Word(_, _, next) => cursor = next,
                    Child::Group(_, inside) => cursor = inside.skip(),
                },
                Item::Other => return Err(DomainFault::Syntax(line)),
            },
        }
    }
}

/// A constant duration on a line.
#[tactic(auto, unfolding(crate::specs::Fields::constant))]
fn read_constant(line: u32, word: &[u8]) -> Result<Ms, DomainFault>
    ensures { Returns is_memory (λ time. time) result (spec.constant line word.now) }
{
    match Ms::read(word) {
        Ok(time) => {
            if time.get() < 0 {
                Err(DomainFault::Number(line))
            } else {
                Ok(time)
            }
        }
        Err(_) => Err(DomainFault::Number(line)),
    }
}

/// The duration that a list on a line says.
#[tactic(auto, unfolding(crate::specs::Fields::duration))]
pub fn read_duration(line: u32, children: Cursor<'_>) -> Result<Ms, DomainFault>
    ensures { Returns is_memory (λ time. time) result (spec.duration line (row_at children.entry)) }
{
    let Child::Word(_, equal, rest) = children.next_child() else {
        return Err(DomainFault::Unsupported(line));
    };
    let Child::Word(_, variable, rest) = rest.next_child() else {
        return Err(DomainFault::Unsupported(line));
    };
    let Child::Word(at, time, rest) = rest.next_child() else {
        return Err(DomainFault::Unsupported(line));
    };
    let Child::End(_) = rest.next_child() else {
        return Err(DomainFault::Unsupported(line));
    };
    if is_same_word(equal, b"=") && is_same_word(variable, b"?duration") {
        read_constant(at, time)
    } else {
        Err(DomainFault::Unsupported(line))
    }
}

/// A list as a value: its line, and the place before its first child.
#[derive(Clone, Copy)]
pub struct Listing<'a> {
    pub line: u32,
    pub inside: Cursor<'a>,
}

/// The values of an action's keys.
#[derive(Clone, Copy)]
pub struct Values<'a> {
    pub parameters: Option<Listing<'a>>,
    pub duration: Option<Listing<'a>>,
    pub condition: Option<Listing<'a>>,
    pub effect: Option<Listing<'a>>,
}

impl<'a> Values<'a> {
    ghost use Rattle.std.specs.Prelude.{◌≡◌, is_some};
    ghost use Rattle.stn_text.specs.Faults.{Returns};
    ghost use Rattle.stn_pddl.specs.{Tree.Cursors.row_at, Faults.is_memory, FieldViews.{listing_of, values_of}};
    ghost use Rattle.stn_pddl.specs.Fields as spec;

    fn is_known(&self, field: Field) -> bool
        ensures { result ≡ is_some (spec.value_of field (values_of self.now)) }
    {
        match field {
            Field::Parameters => self.parameters.is_some(),
            Field::Duration => self.duration.is_some(),
            Field::Condition => self.condition.is_some(),
            Field::Effect => self.effect.is_some(),
        }
    }

    fn with(self, field: Field, listing: Listing<'a>) -> Values<'a>
        ensures { values_of result ≡ spec.with_value field (listing_of listing.entry) (values_of self.entry) }
    {
        let value = Some(listing);
        match field {
            Field::Parameters => Values {
                parameters: value,
                ..self
            },
            Field::Duration => Values {
                duration: value,
                ..self
            },
            Field::Condition => Values {
                condition: value,
                ..self
            },
            Field::Effect => Values {
                effect: value,
                ..self
            },
        }
    }

    /// The values of the keys of a row.
    #[tactic(auto, unfolding(crate::specs::Fields::fields, crate::specs::Fields::field_value))]
    pub fn read(children: Cursor<'a>) -> Result<Values<'a>, DomainFault>
        ensures { Returns is_memory values_of result (spec.fields (row_at children.entry) spec.no_values) }
    {
        let mut values = Values {
            parameters: None,
            duration: None,
            condition: None,
            effect: None,
        };
        let mut cursor = children;
        'fields: loop {
            match cursor.next_child() {
                Child::End(_) => return Ok(values),
                Child::Group(line, _) => return Err(DomainFault::Syntax(line)),
                Child::Word(line, word, rest) => match key_of(word) {
                    Key::Known(field) => {
                        if values.is_known(field) {
                            return Err(DomainFault::Twice(line));
                        }
                        let Child::Group(at, inside) = rest.next_child() else {
                            return Err(DomainFault::Syntax(line));
                        };
                        values = values.with(field, Listing { line: at, inside });
                        cursor = inside.skip();
                    }
                    Key::Unknown => return Err(DomainFault::Unsupported(line)),
                    Key::NoKey => return Err(DomainFault::Syntax(line)),
                },
            }
        }
    }
}
