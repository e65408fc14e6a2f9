//! How many calls each caller made.
ghost use Rattle.std.specs.Prelude.{◌≡◌, ◌≢◌, ℕ, ◌+◌, ◌<◌, ◌≤◌, ◌^◌, IfSome, IfNone, length, replicate, slice_index, sum};
ghost use Rattle.std.specs.List.{sum_by};
ghost use Rattle.recorder.specs.Legal.{calls_of};
ghost use Rattle.recorder.specs.Held.{count_of, folded};

use crate::recorded::Recorded;
use crate::share::{CALLERS, Share};
use guest_memory::GuestMem;
use history::History;
use std::sync::ledger::{Ledger, Share as Part};

/// How many calls each caller made, with those that were folded away.
#[derive(Debug, Drop, PartialEq, Eq)]
pub struct Tally {
    /// The numbers, in the order of the callers.
    pub entries: [u64; CALLERS],
}

impl<M: GuestMem, L: Ledger> Recorded<M, L> {
    /// How many calls each caller made, where the shares are all 67. None where they are not. The shares are spent.
    pub fn gather(&mut self, shares: Vec<Share<L>>) -> Option<Tally>
        ensures none { IfNone result (length shares.items ≢ 67) }
        ensures some { IfSome result (λ tally. length shares.items ≡ 67) }
        ensures each { IfSome result (λ tally. (c : ℕ) → c < 67 →
            slice_index tally.entries c
            ≡ slice_index self.old.tallies c + calls_of c self.old.kept) }
        ensures all { IfSome result
            (λ tally. sum tally.entries ≡ folded self.old + length self.old.kept) }
        ensures counts { IfSome result (λ tally. sum tally.entries ≡ sum_by count_of shares.items) }
        ensures unchanged { self.new ≡ self.old }
    {
        if shares.len() != CALLERS {
            return None;
        }
        let mut all = merged(shares)?;
        self.book.audit(&mut all);
        Some(Tally {
            entries: self.tally(),
        })
    }

    // How many calls each caller made, with those that were folded away.
    pub(crate) fn tally(&self) -> [u64; CALLERS]
        ensures long { length result ≡ 67 }
        ensures each { (c : ℕ) → c < 67
            → slice_index result c ≡ slice_index self.now.tallies c + calls_of c self.now.kept }
        ensures all { sum result ≡ folded self.now + length self.now.kept }
    {
        with_calls(&self.tallies, self.recording.history())
    }
}

// No call of any caller.
pub(crate) fn no_calls() -> [u64; CALLERS]
    ensures value { result ≡ replicate 67 0 }
    ensures long { length result ≡ 67 }
    ensures all { sum result ≡ 0 }
{
    [0; CALLERS]
}

// Adds to each caller's number the calls that it made.
fn with_calls(tallies: &[u64; CALLERS], history: &History) -> [u64; CALLERS]
    requires long { length tallies.now ≡ 67 }
    requires few { history.now.cap ≤ 65536 }
    requires room { sum tallies.now ≤ 2 ^ 62 }
    ensures long { length result ≡ 67 }
    ensures each { (c : ℕ) → c < 67
        → slice_index result c ≡ slice_index tallies.now c + calls_of c history.now.entries }
    ensures all { sum result ≡ sum tallies.now + length history.now.entries }
{
    let mut tallies = *tallies;
    for index in 0..history.len() {
        tallies[usize::from(history.caller(index).number())] += 1;
    }
    tallies
}

// The parts of shares as one.
fn merged<L: Ledger>(mut shares: Vec<Share<L>>) -> Option<Part<L>>
    ensures none { IfNone result (length shares.items ≡ 0) }
    ensures parts { IfSome result (λ all. all.parts ≡ length shares.items) }
    ensures amount { IfSome result (λ all. all.amount ≡ sum_by count_of shares.items) }
{
    let Share {
        caller: _,
        count: _,
        part: mut all,
        asked: _,
        line: _,
    } = shares.pop()?;
    while let Some(share) = shares.pop() {
        let Share {
            caller: _,
            count: _,
            part,
            asked: _,
            line: _,
        } = share;
        all.merge(part);
    }
    Some(all)
}
