//! Calls that contracts alone see.
ghost use Rattle.std.specs.Prelude.{◌≡◌, [], ◌∷◌, ◌++◌};
ghost use Rattle.history.specs.Entries.{last_of};

use history::History;
use shadow::{Shadow, Shows};
use std::marker::Model;

// What contracts see of a list of calls. One that is made has none.
#[derive(Drop)]
struct Calls {}

impl Model for Calls {
    ghost use Rattle.std.specs.Prelude.{List, []};
    ghost use Rattle.history.specs.Entries.{Entry};

    ghost Value = { List Entry };

    ghost view = { λ _. [] };
}

/// Calls, for contracts: it has no bytes, and its functions do nothing. Contracts see its `calls`, the oldest first.
#[derive(Drop)]
pub(crate) struct Asked {
    shadow: Shadow<Calls>,
}

impl Model for Asked {
    ghost use Rattle.recorder.specs.Asked.{Listed};

    ghost Value = { Listed };

    ghost view = { λ a. record { calls = a.shadow.value } };
}

// Calls, and a history that keeps one more.
#[derive(Drop)]
struct More<'a> {
    past: &'a Asked,
    history: &'a History,
}

impl Shows<Calls> for More<'_> {
    ghost shown = { λ m. m.past.now.calls ++ last_of m.history.now.entries ∷ [] };
}

impl Asked {
    /// No calls.
    #[inline]
    pub(crate) fn new() -> Asked
        ensures { result.calls ≡ [] }
    {
        Asked {
            shadow: Shadow::of(&Calls {}),
        }
    }

    /// The calls, and the one that a history keeps last.
    #[inline]
    pub(crate) fn and(&self, history: &History) -> Asked
        ensures { result.calls ≡ self.now.calls ++ last_of history.now.entries ∷ [] }
    {
        let more = More {
            past: self,
            history,
        };
        Asked {
            shadow: Shadow::by(&more),
        }
    }
}
