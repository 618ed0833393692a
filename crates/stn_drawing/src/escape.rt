//! A text as SVG shows it.
ghost use Rattle.std.specs.Prelude.{◌≡◌, ◌++◌, OnOk};
ghost use Rattle.stn_drawing.specs.Escape.{escaped, is_printed, shown, cut};

use std::alloc::Allocator;
use std::slice;
use stn_time::Memory;

// After an error, the output has no meaning.

/// Appends a text as SVG shows it: `&`, `<`, `>` and `"` by their names, and `?` for each byte that ASCII doesn't print.
pub fn append_shown<A: Allocator>(out: &mut Vec<u8, A>, text: &[u8]) -> Result<(), Memory>
    ensures { OnOk result (out.new.items ≡ out.old.items ++ shown text.now) }
{
    for byte in text {
        out.extend_from_slice(escaped(byte))?;
    }
    Ok(())
}

fn escaped(byte: &u8) -> &[u8]
    ensures { result.now ≡ escaped byte.now }
{
    match byte {
        b'&' => b"&amp;",
        b'<' => b"&lt;",
        b'>' => b"&gt;",
        b'"' => b"&quot;",
        _ if is_printed(*byte) => slice::from_ref(byte),
        _ => b"?",
    }
}

// Whether ASCII prints the byte.
fn is_printed(byte: u8) -> bool
    ensures { result ≡ is_printed byte }
{
    32 <= byte && byte < 127
}

/// Appends a text as SVG shows it if it has at most so many bytes, and else as many but one and an ellipsis.
pub fn append_cut<A: Allocator>(
    out: &mut Vec<u8, A>,
    most: usize,
    text: &[u8],
) -> Result<(), Memory>
    ensures { OnOk result (out.new.items ≡ out.old.items ++ cut most text.now) }
{
    if most < text.len() {
        append_shown(out, &text[..most.saturating_sub(1)])?;
        out.extend_from_slice(b"&#8230;")
    } else {
        append_shown(out, text)
    }
}
