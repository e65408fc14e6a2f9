//! Texts cut at a byte.
ghost use Rattle.std.specs.Prelude.{◌≡◌, ◌<◌, ◌≤◌, ◌∷◌, ◌++◌, length, option_copied, slice_index, IfSome, IfNone};
ghost use Rattle.memchr.specs.Find.{Nowhere, Passes, is_byte};
ghost use Rattle.script.specs.Text.{IsWithout, parts, parts_after};

use memchr::memchr;

/// A text up to the first of these bytes, and what comes after that byte, if the text has one. The first `few` bytes are
/// looked at one by one.
#[inline]
pub fn cut(few: usize, byte: u8, text: &[u8]) -> (&[u8], Option<&[u8]>)
    ensures parts { parts byte text.now ≡ result.0.now ∷ parts_after byte (option_copied result.1) }
    ensures whole { IfSome result.1 (λ after. text.now ≡ result.0.now ++ byte ∷ after.now) }
    ensures none { IfNone result.1 (result.0.now ≡ text.now) }
    ensures clear { IsWithout byte result.0.now }
    ensures shorter { IfSome result.1 (λ after. length after.now < length text.now) }
{
    let at = place(few, byte, text);
    if at < text.len() {
        (&text[..at], Some(&text[at + 1..]))
    } else {
        (text, None)
    }
}

/// How many bytes of a text come before the first of these bytes: all of them, where the text has none. The first `few`
/// bytes are looked at one by one.
#[inline]
pub fn place(few: usize, byte: u8, text: &[u8]) -> usize
    ensures inside { result ≤ length text.now }
    ensures before { Nowhere (Passes (is_byte byte) text.now) 0 result }
    ensures here { result < length text.now → slice_index text.now result ≡ byte }
{
    let near = text.len().min(few);
    for at in 0..near {
        if text[at] == byte {
            return at;
        }
    }
    if near == text.len() {
        return near;
    }
    far_place(byte, text)
}

// The same, for a text whose first bytes are others.
#[inline(never)]
fn far_place(byte: u8, text: &[u8]) -> usize
    ensures inside { result ≤ length text.now }
    ensures before { Nowhere (Passes (is_byte byte) text.now) 0 result }
    ensures here { result < length text.now → slice_index text.now result ≡ byte }
{
    match memchr(byte, text) {
        Some(at) => at,
        None => text.len(),
    }
}
