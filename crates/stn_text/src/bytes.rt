//! Bytes that mean something in more than one kind of text.

ghost use Rattle.std.specs.Prelude.{◌≡◌, ◌==◌, nat_lt, length};
ghost use Rattle.stn_text.specs.Bytes as spec;

/// The byte that ends a line.
pub const LINE_FEED: u8 = b'\n';

// The byte that begins a comment.
const SEMICOLON: u8 = b';';

/// How many bytes the text of a domain or of a plan has at most.
pub const MOST_TEXT: usize = 65_536;

/// Whether the text of a domain or of a plan has too many bytes.
pub fn is_too_long(text: &[u8]) -> bool
    ensures { result ≡ nat_lt spec.most_text (length text.now) }
{
    MOST_TEXT < text.len()
}

/// Whether the byte begins a comment in the text of a domain or of a plan: `;`.
pub fn begins_comment(byte: u8) -> bool
    ensures { result ≡ (byte == spec.semicolon) }
{
    byte == SEMICOLON
}

/// Whether the byte is a tab, a line feed, a vertical tab, a form feed, a carriage return or a space.
pub fn is_space(byte: u8) -> bool
    ensures { result ≡ spec.is_space byte }
{
    matches!(byte, 9..=13 | 32)
}

/// Whether the byte prints in ASCII and is no space.
pub fn is_visible(byte: u8) -> bool
    ensures { result ≡ spec.is_visible byte }
{
    33 <= byte && byte <= 126
}
