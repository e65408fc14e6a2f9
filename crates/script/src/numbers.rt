//! Numbers in scripts and on the command line.
ghost use Rattle.std.specs.Prelude.{◌≡◌, ◌≤◌, ◌<◌, Some, IfSome, length, take};
ghost use Rattle.memchr.specs.Find.{Nowhere, Passes, is_byte};
ghost use Rattle.script.specs.Numbers.{is_marked, number_of, number_on, number_to};
ghost use Rattle.script.specs.Words.{Begins, BeginsTo};

use crate::hexadecimal::value;

// The most bytes of a number that begins with `0x`.
const MOST_MARKED: usize = 18;

// The most digits of a number that is read where it stands.
const FEW_DIGITS: usize = 16;

// A number below this has room for one digit more.
const ROOMY: u64 = 1 << 59;

/// The number that a word writes: decimal digits, as many as one likes, or `0x` and 1 to 16 hexadecimal digits of either
/// case. None where the word is no number, or one that isn't below 2^64.
#[tactic(auto, unfolding(crate::specs::Numbers::number_of))]
pub fn number(word: &[u8]) -> Option<u64>
    ensures { result ≡ number_of word.now }
{
    if !is_marked(word) {
        return to_base(10, word);
    }
    if word.len() > MOST_MARKED {
        return None;
    }
    to_base(16, &word[2..])
}

// Whether a word begins with `0x`.
#[inline]
fn is_marked(word: &[u8]) -> bool
    ensures { result ≡ is_marked word.now }
{
    word.len() >= 2 && word[0] == b'0' && word[1] == b'x'
}

/// The number of decimal digits, where it is below 2^64.
pub fn decimal(digits: &[u8]) -> Option<u64>
    ensures { result ≡ number_to 10 digits.now }
{
    to_base(10, digits)
}

// The number of one or more digits to a base, where it is below 2^64.
#[tactic(auto, unfolding(crate::specs::Numbers::number_to))]
fn to_base(base: u8, digits: &[u8]) -> Option<u64>
    ensures { result ≡ number_to base digits.now }
{
    if digits.is_empty() {
        return None;
    }
    let mut number = 0u64;
    for byte in digits {
        let digit = value(*byte);
        if digit >= base {
            return None;
        }
        number = number
            .checked_mul(u64::from(base))?
            .checked_add(u64::from(digit))?;
    }
    Some(number)
}

/// The number of the word that a text begins with, and what comes after it, where the word is a number of at most 16 digits.
/// None tells nothing.
#[inline]
pub fn first_number(text: &[u8]) -> Option<(u64, &[u8])>
    ensures { IfSome result (λ r. Begins text.now r.0 r.1.now) }
{
    if is_marked(text) {
        first_number_to(16, &text[2..])
    } else {
        first_number_to(10, text)
    }
}

// The number to a base that the digits begin with, and what comes after it.
#[inline]
#[tactic(auto, using(crate::proofs::NumberLemmas::digit_more, crate::proofs::NumberLemmas::clear_more))]
fn first_number_to(base: u8, digits: &[u8]) -> Option<(u64, &[u8])>
    requires { base ≤ 16 }
    ensures { IfSome result (λ r. BeginsTo base digits.now r.0 r.1.now) }
{
    let few = digits.len().min(FEW_DIGITS);
    let mut number = 0u64;
    for at in 0..few {
        let digit = value(digits[at]);
        if digit >= base {
            return ended(base, number, digits, at);
        }
        if number >= ROOMY {
            return None;
        }
        number = number * u64::from(base) + u64::from(digit);
    }
    ended(base, number, digits, few)
}

// What comes after so many digits, where it is a space or nothing.
#[inline]
#[tactic(auto, unfolding(crate::specs::Numbers::number_to))]
fn ended(base: u8, number: u64, digits: &[u8], at: usize) -> Option<(u64, &[u8])>
    requires inside { at ≤ length digits.now }
    requires few { at ≤ 16 }
    requires number { number_on base 0 (take at digits.now) ≡ Some number }
    requires before { Nowhere (Passes (is_byte 32) digits.now) 0 at }
    ensures { IfSome result (λ r. BeginsTo base digits.now r.0 r.1.now) }
{
    if at == 0 || at < digits.len() && digits[at] != b' ' {
        return None;
    }
    Some((number, &digits[at..]))
}
