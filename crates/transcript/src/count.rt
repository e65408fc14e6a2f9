//! Numbers that follow one another, in decimal digits.
ghost use Rattle.std.specs.Prelude.{◌≡◌, ◌+◌, ◌≤◌, ◌++◌, length, take, decimal};

use crate::text::{put_front, word_at};
use std::marker::Model;

/// How many digits a number of 64 bits has at most.
pub const MOST_DIGITS: usize = 20;

const LAST: usize = MOST_DIGITS - 1;

/// A number that is kept in its decimal digits, so that the next one costs little.
#[derive(Drop)]
pub struct Count {
    number: u64,
    // the digits stand from the first one on up to index 20; behind them is room, so that from each as many can be copied
    digits: [u8; 2 * MOST_DIGITS],
    first: usize,
}

impl Model for Count {
    ghost use Rattle.std.specs.Prelude.{◌≡◌, ◌<◌, ℕ, decimal, drop, take};

    ghost Value = { ℕ };

    ghost view = { λ c. c.number };

    ghost invariant = { λ c. (c.first < 20)
        × (drop c.first (take 20 c.digits) ≡ decimal c.number) };
}

impl Count {
    /// The number 0.
    pub fn new() -> Count
        ensures { result ≡ 0 }
    {
        Count {
            number: 0,
            digits: [b'0'; 2 * MOST_DIGITS],
            first: LAST,
        }
    }

    /// Goes to a number, and writes its digits from an index on. Answers the index behind them.
    #[inline]
    pub fn put(&mut self, number: u64, room: &mut [u8], at: usize) -> usize
        requires { at + MOST_DIGITS ≤ length room.old }
        ensures end { result ≤ at + MOST_DIGITS }
        ensures text { take result room.new ≡ take at room.old ++ decimal number }
    {
        self.go_to(number);
        let digits = word_at(&self.digits, self.first);
        put_front::<MOST_DIGITS>(room, at, digits, MOST_DIGITS - self.first)
    }

    // Goes to a number. Nine of ten that follow the one before differ from it in the last digit alone.
    #[inline]
    fn go_to(&mut self, number: u64)
        ensures { self.new ≡ number }
    {
        match number.checked_sub(self.number) {
            Some(1) if self.digits[LAST] < b'9' => {
                self.digits[LAST] += 1;
                self.number = number;
            }
            _ => self.set(number),
        }
    }

    // Goes to any number.
    #[inline(never)]
    fn set(&mut self, number: u64)
        ensures { self.new ≡ number }
    {
        self.first = itoa::write_digits(number, &mut self.digits, MOST_DIGITS);
        self.number = number;
    }
}
