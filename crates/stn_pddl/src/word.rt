//! What the words of a domain stand for.

ghost use Rattle.std.specs.{Prelude.◌≡◌, List.list_any};
ghost use Rattle.stn_pddl.specs.Tree.Names.{is_same_word};
ghost use Rattle.stn_pddl.specs.Words as spec;

use crate::tree::is_same_word as same;

/// The head of a condition or an effect.
#[derive(Clone, Copy)]
pub enum Head {
    And,
    Not,
    Equal,
    At,
    Over,
    /// A word of a logic that is not supported.
    OtherLogic,
    /// Any other name.
    Name,
    /// A word that begins with `?` or `:`.
    NoName,
}

/// A word of a list of parameters.
#[derive(Clone, Copy)]
pub enum Item {
    Parameter,
    /// The word before a type.
    Dash,
    Other,
}

/// A key of an action.
#[derive(Clone, Copy)]
pub enum Field {
    Parameters,
    Duration,
    Condition,
    Effect,
}

/// A word where a key is wanted.
#[derive(Clone, Copy)]
pub enum Key {
    Known(Field),
    /// Another word that begins with `:`.
    Unknown,
    NoKey,
}

/// The head of a part of a domain.
#[derive(Clone, Copy)]
pub enum Section {
    Skipped,
    Action,
    /// Another word that begins with `:`.
    Unknown,
    NoSection,
}

fn begins_with(byte: u8, word: &[u8]) -> bool
    ensures { result ≡ spec.begins_with_byte byte word.now }
{
    match word {
        [] => false,
        [first, ..] => *first == byte,
    }
}

/// Whether the word begins with `?`.
#[tactic(auto, unfolding(crate::specs::Words::is_variable))]
pub fn is_variable(word: &[u8]) -> bool
    ensures { result ≡ spec.is_variable word.now }
{
    begins_with(b'?', word)
}

/// Whether the word begins with `:`.
#[tactic(auto, unfolding(crate::specs::Words::is_key))]
pub fn is_key(word: &[u8]) -> bool
    ensures { result ≡ spec.is_key word.now }
{
    begins_with(b':', word)
}

/// Whether the word begins neither with `?` nor with `:`.
#[tactic(auto, unfolding(crate::specs::Words::is_name))]
pub fn is_name(word: &[u8]) -> bool
    ensures { result ≡ spec.is_name word.now }
{
    !is_variable(word) && !is_key(word)
}

fn is_connective(word: &[u8]) -> bool
    ensures { result ≡ list_any (is_same_word word.now) spec.connectives }
{
    same(word, b"or")
        || same(word, b"imply")
        || same(word, b"forall")
        || same(word, b"exists")
        || same(word, b"when")
        || same(word, b"preference")
}

fn is_comparison(word: &[u8]) -> bool
    ensures { result ≡ list_any (is_same_word word.now) spec.comparisons }
{
    same(word, b"<") || same(word, b">") || same(word, b"<=") || same(word, b">=")
}

fn is_assignment(word: &[u8]) -> bool
    ensures { result ≡ list_any (is_same_word word.now) spec.assignments }
{
    same(word, b"increase")
        || same(word, b"decrease")
        || same(word, b"assign")
        || same(word, b"scale-up")
        || same(word, b"scale-down")
}

#[tactic(auto, unfolding(crate::specs::Words::is_other_logic))]
fn is_other_logic(word: &[u8]) -> bool
    ensures { result ≡ spec.is_other_logic word.now }
{
    is_connective(word) || is_comparison(word) || is_assignment(word)
}

/// What a word at the head of a condition or an effect stands for.
#[tactic(auto, unfolding(crate::specs::Words::head_of))]
pub fn head_of(word: &[u8]) -> Head
    ensures { result ≡ spec.head_of word.now }
{
    if same(word, b"and") {
        Head::And
    } else if same(word, b"not") {
        Head::Not
    } else if same(word, b"=") {
        Head::Equal
    } else if same(word, b"at") {
        Head::At
    } else if same(word, b"over") {
        Head::Over
    } else if is_other_logic(word) {
        Head::OtherLogic
    } else if is_name(word) {
        Head::Name
    } else {
        Head::NoName
    }
}

/// What a word of a list of parameters stands for.
#[tactic(auto, unfolding(crate::specs::Words::item_of))]
pub fn item_of(word: &[u8]) -> Item
    ensures { result ≡ spec.item_of word.now }
{
    if is_variable(word) && 1 < word.len() {
        Item::Parameter
    } else if same(word, b"-") {
        Item::Dash
    } else {
        Item::Other
    }
}

/// What a word stands for where a key of an action is wanted.
#[tactic(auto, unfolding(crate::specs::Words::key_of))]
pub fn key_of(word: &[u8]) -> Key
    ensures { result ≡ spec.key_of word.now }
{
    if same(word, b":parameters") {
        Key::Known(Field::Parameters)
    } else if same(word, b":duration") {
        Key::Known(Field::Duration)
    } else if same(word, b":condition") {
        Key::Known(Field::Condition)
    } else if same(word, b":effect") {
        Key::Known(Field::Effect)
    } else if is_key(word) {
        Key::Unknown
    } else {
        Key::NoKey
    }
}

fn is_skipped(word: &[u8]) -> bool
    ensures { result ≡ list_any (is_same_word word.now) spec.skipped }
{
    same(word, b":requirements")
        || same(word, b":types")
        || same(word, b":constants")
        || same(word, b":predicates")
}

/// What a word at the head of a part of a domain stands for.
#[tactic(auto, unfolding(crate::specs::Words::section_of))]
pub fn section_of(word: &[u8]) -> Section
    ensures { result ≡ spec.section_of word.now }
{
    if is_skipped(word) {
        Section::Skipped
    } else if same(word, b":durative-action") {
        Section::Action
    } else if is_key(word) {
        Section::Unknown
    } else {
        Section::NoSection
    }
}
