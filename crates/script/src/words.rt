//! The words of a line, and the numbers that they write.
ghost use Rattle.std.specs.Prelude.{◌≡◌, ◌≤◌, ◌∷◌, [], length, slice_index, Some, None, MatchOption, MatchResult, ok_or, option_copied};
ghost use Rattle.script.specs.Numbers.{number_of};
ghost use Rattle.script.specs.Words.{NotOne, NotThree, NotTwo, NotTwoAnd, One, Reads, ReadsNone, Three, Two, TwoAnd};
ghost use Rattle.script.specs.Words.{at_most, none_of, one_of, queue_by, two_or_three_of, words_of};

use crate::fault::Refusal;
use crate::numbers::{first_number, number};
use crate::text::place;
use device::Queue;
use std::marker::Model;

// How many bytes of a word are looked at one by one for its end: most words are shorter.
const FEW: usize = 16;

/// What is left of a line, seen as the list of its words. They are parted by one or more spaces.
#[derive(Drop)]
pub struct Words<'a> {
    rest: &'a [u8],
}

impl<'a> Model for Words<'a> {
    ghost use Rattle.std.specs.Prelude.{List, ℕ};

    ghost Value = { List (List ℕ) };

    ghost use Rattle.script.specs.Words.{words_of};

    ghost view = { λ w. words_of w.rest.now };
}

impl<'a> Words<'a> {
    /// All words of a line.
    pub fn new(line: &'a [u8]) -> Words<'a>
        ensures { result ≡ words_of line.now }
    {
        Words { rest: line }
    }

    /// The next word, if there is one.
    #[inline]
    pub fn next(&mut self) -> Option<&'a [u8]>
        ensures { MatchOption result ((self.old ≡ []) × (self.new ≡ []))
            (λ word. self.old ≡ word.now ∷ self.new) }
    {
        self.next_by(FEW)
    }

    // The same, where the first `few` bytes of the word are looked at one by one.
    #[inline]
    #[tactic(auto, using(crate::proofs::WordLemmas::first_word))]
    fn next_by(&mut self, few: usize) -> Option<&'a [u8]>
        ensures { MatchOption result ((self.old ≡ []) × (self.new ≡ []))
            (λ word. self.old ≡ word.now ∷ self.new) }
    {
        let text = past_spaces(self.rest);
        if text.is_empty() {
            self.rest = text;
            return None;
        }
        let (word, rest) = text.split_at(place(few, b' ', text));
        self.rest = rest;
        Some(word)
    }

    /// That no word is left.
    pub fn none(mut self) -> Result<(), Refusal>
        ensures { result ≡ ok_or (none_of self.entry) Refusal.BadLine }
    {
        match self.next() {
            Some(_) => Err(Refusal::BadLine),
            None => Ok(()),
        }
    }

    /// The one word that is left. It is looked for as a long one.
    #[inline]
    pub fn one(mut self) -> Result<&'a [u8], Refusal>
        ensures { MatchResult result (λ word. one_of self.entry ≡ Some word.now)
            (λ e. (e ≡ Refusal.BadLine) × (one_of self.entry ≡ None)) }
    {
        let Some(word) = self.next_by(0) else {
            return Err(Refusal::BadLine);
        };
        self.none()?;
        Ok(word)
    }

    /// The number that the next word writes. None where that is none, and where there is no word.
    #[inline]
    pub fn number(&mut self) -> Option<u64>
        ensures { MatchOption result (ReadsNone self.old) (λ n. Reads self.old n self.new) }
    {
        let text = past_spaces(self.rest);
        self.rest = text;
        if let Some((number, rest)) = first_number(text) {
            self.rest = rest;
            return Some(number);
        }
        self.word_number()
    }

    // The same, by the word.
    #[inline(never)]
    #[tactic(auto, using(crate::proofs::NumberLemmas::no_word, crate::proofs::NumberLemmas::no_number))]
    fn word_number(&mut self) -> Option<u64>
        ensures { MatchOption result (ReadsNone self.old) (λ n. Reads self.old n self.new) }
    {
        let Some(word) = self.next() else {
            return None;
        };
        number(word)
    }

    /// The one number that is left.
    #[inline]
    #[tactic(auto, using(crate::proofs::NumberLemmas::one_first, crate::proofs::NumberLemmas::one_more, crate::proofs::NumberLemmas::one_read))]
    pub fn one_number(mut self) -> Result<u64, Refusal>
        ensures { MatchResult result (λ n. One self.entry n)
            (λ e. (e ≡ Refusal.BadLine) × NotOne self.entry) }
    {
        let Some(number) = self.number() else {
            return Err(Refusal::BadLine);
        };
        self.none()?;
        Ok(number)
    }

    /// The two numbers that are left.
    #[inline]
    #[tactic(auto, using(crate::proofs::NumberLemmas::two_first, crate::proofs::NumberLemmas::two_more, crate::proofs::NumberLemmas::two_read))]
    pub fn two_numbers(mut self) -> Result<(u64, u64), Refusal>
        ensures { MatchResult result (λ ns. Two self.entry ns.0 ns.1)
            (λ e. (e ≡ Refusal.BadLine) × NotTwo self.entry) }
    {
        let Some(first) = self.number() else {
            return Err(Refusal::BadLine);
        };
        let Ok(second) = self.one_number() else {
            return Err(Refusal::BadLine);
        };
        Ok((first, second))
    }

    /// The three numbers that are left.
    #[inline]
    #[tactic(auto, using(crate::proofs::NumberLemmas::three_first, crate::proofs::NumberLemmas::three_more, crate::proofs::NumberLemmas::three_read))]
    pub fn three_numbers(mut self) -> Result<(u64, u64, u64), Refusal>
        ensures { MatchResult result (λ ns. Three self.entry ns.0 ns.1 ns.2)
            (λ e. (e ≡ Refusal.BadLine) × NotThree self.entry) }
    {
        let Some(first) = self.number() else {
            return Err(Refusal::BadLine);
        };
        let Ok((second, third)) = self.two_numbers() else {
            return Err(Refusal::BadLine);
        };
        Ok((first, second, third))
    }

    /// The two numbers that are left, and a word after them.
    #[inline]
    #[tactic(auto, using(crate::proofs::NumberLemmas::and_first, crate::proofs::NumberLemmas::and_second, crate::proofs::NumberLemmas::and_more, crate::proofs::NumberLemmas::and_read))]
    pub fn two_numbers_and_word(mut self) -> Result<(u64, u64, &'a [u8]), Refusal>
        ensures { MatchResult result (λ all. TwoAnd self.entry all.0 all.1 all.2.now)
            (λ e. (e ≡ Refusal.BadLine) × NotTwoAnd self.entry) }
    {
        let Some(first) = self.number() else {
            return Err(Refusal::BadLine);
        };
        let Some(second) = self.number() else {
            return Err(Refusal::BadLine);
        };
        let word = self.one()?;
        Ok((first, second, word))
    }

    /// The two or three words that are left.
    pub fn two_or_three(mut self) -> Result<(&'a [u8], &'a [u8], Option<&'a [u8]>), Refusal>
        ensures { MatchResult result
            (λ words. two_or_three_of self.entry
            ≡ Some (words.0.now, (words.1.now, option_copied words.2)))
            (λ e. (e ≡ Refusal.BadLine) × (two_or_three_of self.entry ≡ None)) }
    {
        let (Some(first), Some(second)) = (self.next(), self.next()) else {
            return Err(Refusal::BadLine);
        };
        let third = self.next();
        self.none()?;
        Ok((first, second, third))
    }
}

// A text without the spaces that it begins with.
fn past_spaces(text: &[u8]) -> &[u8]
    ensures words { words_of result.now ≡ words_of text.now }
    ensures first { slice_index result.now 0 ≡ 32 → result.now ≡ [] }
{
    let mut rest = text;
    while let [b' ', after @ ..] = rest {
        rest = after;
    }
    rest
}

/// The number that a word writes, which must not be above `most`.
pub fn up_to(most: u64, word: &[u8]) -> Result<u64, Refusal>
    ensures { result ≡ ok_or (at_most most (number_of word.now)) Refusal.BadLine }
{
    match number(word) {
        Some(value) if value <= most => Ok(value),
        _ => Err(Refusal::BadLine),
    }
}

/// A number that must not be above `most`.
#[inline]
fn at_most(most: u64, number: u64) -> Result<u64, Refusal>
    ensures { result ≡ ok_or (at_most most (Some number)) Refusal.BadLine }
{
    if number <= most {
        Ok(number)
    } else {
        Err(Refusal::BadLine)
    }
}

/// A pool: a number of 8 bits.
#[inline]
pub fn pool(number: u64) -> Result<u8, Refusal>
    ensures { result ≡ ok_or (at_most 0xFF (Some number)) Refusal.BadLine }
{
    Ok(at_most(0xFF, number)? as u8)
}

/// A length in bytes: a number of 16 bits.
#[inline]
pub fn length(number: u64) -> Result<u16, Refusal>
    ensures { result ≡ ok_or (at_most 0xFFFF (Some number)) Refusal.BadLine }
{
    Ok(at_most(0xFFFF, number)? as u16)
}

/// An offset or the value of a register: a number of 32 bits.
#[inline]
pub fn register(number: u64) -> Result<u32, Refusal>
    ensures { result ≡ ok_or (at_most 0xFFFF_FFFF (Some number)) Refusal.BadLine }
{
    Ok(at_most(0xFFFF_FFFF, number)? as u32)
}

/// A queue: 0 or 1.
#[inline]
pub fn queue(number: u64) -> Result<Queue, Refusal>
    ensures { result ≡ ok_or (queue_by (at_most 1 (Some number))) Refusal.BadLine }
{
    match at_most(1, number)? {
        0 => Ok(Queue::Q0),
        _ => Ok(Queue::Q1),
    }
}

/// A number of 64 bits that a word writes, as the size of a memory.
pub fn size(word: &[u8]) -> Result<u64, Refusal>
    ensures { result ≡ ok_or (number_of word.now) Refusal.BadLine }
{
    number(word).ok_or(Refusal::BadLine)
}
