ghost use Rattle.std.specs.Prelude.{◌≡◌, ◌<◌, ◌≤◌, false, [], ◌∷◌, length, position, MatchOption, IfSome};
ghost use Rattle.stn_text.specs.Lines.{IsCutBehindLine, lines_of, words_of, is_line_end, is_gap, begins_with_gap};

use crate::bytes::LINE_FEED;

/// The first line of a text that is not empty, without its LF, and the text after it: byte for byte the text is the line, the
/// LF where it has one, and what stands after.
pub fn first_line(text: &[u8]) -> (&[u8], &[u8])
    requires { 0 < length text.now }
    ensures lines { lines_of text.now ≡ result.0.now ∷ lines_of result.1.now }
    ensures bytes { IsCutBehindLine text.now result.0.now result.1.now }
    ensures shorter { length result.1.now < length text.now }
{
    match line_end(text) {
        Some(end) => (&text[..end], &text[end + 1..]),
        None => (text, &[]),
    }
}

/// The first word of a line, and what follows it on the line; none where the line has no words.
pub fn first_word(line: &[u8]) -> Option<(&[u8], &[u8])>
    ensures words { MatchOption result (words_of line.now ≡ [])
        (λ parts. words_of line.now ≡ parts.0.now ∷ words_of parts.1.now) }
    ensures shorter { IfSome result (λ parts. length parts.1.now < length line.now) }
{
    let rest = without_gaps(line);
    if rest.is_empty() {
        return None;
    }
    match word_end(rest) {
        Some(end) => Some((&rest[..end], &rest[end + 1..])),
        None => Some((rest, &[])),
    }
}

// The place of the first LF.
fn line_end(text: &[u8]) -> Option<usize>
    ensures { result ≡ position is_line_end text.now }
{
    text.iter().position(|byte| *byte == LINE_FEED)
}

// The place of the first byte that parts words.
fn word_end(line: &[u8]) -> Option<usize>
    ensures { result ≡ position is_gap line.now }
{
    line.iter().position(|byte| is_gap(*byte))
}

// The line without the bytes at its front that part words.
fn without_gaps(line: &[u8]) -> &[u8]
    ensures words { words_of result.now ≡ words_of line.now }
    ensures begins { begins_with_gap result.now ≡ false }
    ensures shorter { length result.now ≤ length line.now }
{
    let mut rest = line;
    while let Some((first, behind)) = rest.split_first() {
        if !is_gap(*first) {
            break;
        }
        rest = behind;
    }
    rest
}

// Whether the byte parts words.
fn is_gap(byte: u8) -> bool
    ensures { result ≡ is_gap byte }
{
    byte == b' ' || byte == b'\t' || byte == b'\r'
}
