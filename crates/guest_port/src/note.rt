//! Notes of a port's end.
ghost use Rattle.std.specs.Prelude.{◌≡◌, ℕ, true, false, ◌||◌, IfOk};
ghost use Rattle.guest_port.specs.Notes.{knows, new_note, having_found};
ghost use Rattle.std.specs.Arc.{arc_value};
ghost use Rattle.once_cell.specs.Once.{cell_name};

use once_cell::race::{Note, OnceBox};
use std::alloc::{AllocError, Global};
use std::marker::Model;
use std::sync::Arc;

/// What a port sets when it ends.
#[derive(Drop)]
pub(crate) struct End;

/// Whether a port has ended, as far as this note knows. A port has two notes: its own, and one for whoever looks out for its
/// end. A note that knows of the end knows it for good.
///
/// Contracts see which port the note is of, whether it has found the end, and whether it was told of it.
#[derive(Drop)]
pub struct EndNote {
    cell: Arc<OnceBox<End>>,
    note: Note<End>,
    found: bool,
    told: bool,
}

impl Model for EndNote {
    ghost use Rattle.guest_port.specs.Notes.{Known};

    ghost Value = { Known };

    ghost use Rattle.std.specs.Prelude.{◌≡◌, is_some};
    ghost use Rattle.std.specs.Arc.{arc_value};
    ghost use Rattle.once_cell.specs.Once.{cell_name};

    ghost view = { λ n. record {
      port = cell_name (arc_value n.cell);
      found = is_some n.note.known;
      told = n.told;
    } };

    ghost invariant = { λ n. (n.note.cell ≡ cell_name (arc_value n.cell))
        × (is_some n.note.known ≡ n.found) };
}

impl EndNote {
    // Two notes of a new port. Only here is memory taken.
    pub(crate) fn two(alloc: Global) -> Result<(EndNote, EndNote), AllocError>
        ensures { IfOk result (λ r. (r.0 ≡ new_note r.0.port) × (r.1 ≡ new_note r.0.port)) }
    {
        let cell = Arc::new(alloc, OnceBox::new(alloc))?;
        let other = Arc::try_clone(&cell)?;
        Ok((EndNote::over(cell), EndNote::over(other)))
    }

    // A note that has not looked yet.
    fn over(cell: Arc<OnceBox<End>>) -> EndNote
        ensures { result ≡ new_note (cell_name (arc_value cell)) }
    {
        let note = cell.note();
        EndNote {
            cell,
            note,
            found: false,
            told: false,
        }
    }

    /// Whether the port has ended, as far as the note knows once it has looked. It waits for nobody.
    pub fn ended(&mut self) -> bool
        ensures answer { result ≡ knows self.new }
        ensures never_unset { knows self.old ≡ true → result ≡ true }
        ensures looked { self.new ≡ record self.old { found = self.old.found || self.new.found } }
    {
        self.found = self.cell.get_as(&mut self.note).is_some();
        self.found || self.told
    }

    /// Learns what another note of the same port knows.
    pub fn told(&mut self, other: &EndNote)
        requires { other.now.port ≡ self.old.port }
        ensures { self.new ≡ record self.old { told = self.old.told || knows other.now } }
    {
        self.told = self.told || other.told || other.found;
    }

    // Sets the end, and so finds it.
    pub(crate) fn set(&mut self, mark: Box<End>)
        ensures { self.new ≡ having_found self.old }
    {
        // an end that was set before stands
        let _ = self.cell.set_as(mark, &mut self.note);
        self.found = true;
    }
}
