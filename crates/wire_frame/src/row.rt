//! Rows of a register map.
ghost use Rattle.std.specs.Prelude.{◌≡◌, ℕ, ◌<◌, ◌≤◌, length};
ghost use Rattle.wire_frame.specs.Row.{place_of, word_at, words_after, one_at, one_after};

/// A row of a register map: words of 32 bits that stand equally far apart.
#[derive(Clone, Copy, Debug, PartialEq, Eq)]
pub struct Row {
    /// The offset of the first word, in bytes.
    pub first: u32,
    /// How many words there are.
    pub count: u32,
    /// How far two neighbours stand apart, in bytes; not 0.
    pub stride: u32,
    /// The bits that a write keeps.
    pub mask: u32,
}

/// The place of the word that an offset names, counted from 0, if it names one of the row.
#[inline]
fn place_of(row: Row, offset: u32) -> Option<usize>
    requires { 0 < row.stride }
    ensures { result ≡ place_of row offset }
{
    if offset < row.first || !(offset - row.first).is_multiple_of(row.stride) {
        return None;
    }
    let place = (offset - row.first) / row.stride;
    if place < row.count {
        Some(place as usize)
    } else {
        None
    }
}

/// The word that an offset names, if it names one of the row.
#[inline]
#[tactic(auto, unfolding(crate::specs::Row::word_at))]
pub fn read_word(words: &[u32], row: Row, offset: u32) -> Option<u32>
    requires stride { 0 < row.stride }
    requires count { length words.now ≡ row.count }
    ensures { result ≡ word_at row words.now offset }
{
    let place = place_of(row, offset)?;
    Some(words[place])
}

/// Writes the word that an offset names, if it names one of the row. Every other word stays.
#[inline]
#[tactic(auto, unfolding(crate::specs::Row::words_after))]
pub fn write_word(words: &mut [u32], row: Row, offset: u32, value: u32)
    requires stride { 0 < row.stride }
    requires count { length words.old ≡ row.count }
    ensures { words.new ≡ words_after row words.old offset value }
{
    if let Some(place) = place_of(row, offset) {
        words[place] = value & row.mask;
    }
}

/// The word of a register that stands alone at `first`, if the offset names it.
#[inline]
#[tactic(auto, unfolding(crate::specs::Row::one_at))]
pub fn read_one(word: u32, first: u32, offset: u32) -> Option<u32>
    ensures { result ≡ one_at first word offset }
{
    if offset == first { Some(word) } else { None }
}

/// Writes a register that stands alone at `first`, if the offset names it.
#[inline]
#[tactic(auto, unfolding(crate::specs::Row::one_after))]
pub fn write_one(word: &mut u32, first: u32, mask: u32, offset: u32, value: u32)
    ensures { word.new ≡ one_after first mask word.old offset value }
{
    if offset == first {
        *word = value & mask;
    }
}
