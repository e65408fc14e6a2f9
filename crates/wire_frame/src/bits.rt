//! Bits of words, and sets of pools as masks of 64 bits.
ghost use Rattle.std.specs.Prelude.{◌≡◌, ℕ, ◌+◌, ◌*◌, ◌<◌, length};
ghost use Rattle.wire_frame.specs.Bits.{field, has_bit, has_bit_in, two_words};

/// Whether bit `i` of the word is 1.
#[inline]
#[tactic(auto, using(crate::proofs::BitLemmas::has_bit_shr))]
pub fn has_bit(word: u64, i: u32) -> bool
    requires { i < 64 }
    ensures { result ≡ has_bit word i }
{
    (word >> i) & 1 == 1
}

/// The number in the `size` bits of the word from bit `low` on.
#[inline]
pub fn field(word: u64, low: u32, size: u32) -> u64
    requires low { low < 64 }
    requires size { size < 64 }
    ensures { result ≡ field word low size }
{
    (word >> low) % (1 << size)
}

/// The pools of entry `e`, of a table with two words an entry: pools 0 to 31, and pools 32 to 63.
#[inline]
#[tactic(auto, using(crate::proofs::BitLemmas::has_bit_two_words))]
pub fn pool_words(words: &[u32], e: usize) -> u64
    requires { 2 * e + 1 < length words.now }
    ensures { (p : ℕ) → p < 64 → has_bit result p ≡ has_bit_in (two_words words.now e) p }
{
    u64::from(words[2 * e]) | (u64::from(words[2 * e + 1]) << 32)
}
