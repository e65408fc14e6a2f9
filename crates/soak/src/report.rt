//! What is printed of rounds.
use crate::round::{Figures, Kind};
use std::io;
use std::io::Write;

impl Figures {
    /// Whether a round of this kind came out right: each guest read what it wrote, and the calls that were folded away and
    /// those that are kept are all that the shares tell. A history that is folded was folded, and one that is filled is full
    /// and replays.
    pub fn is_right(&self, kind: Kind, cap: usize) -> bool {
        let ended = match kind {
            Kind::Fold => self.folds > 0,
            Kind::Fill => self.folded == 0 && self.kept == cap as u64 && self.replays,
        };
        let all = self.folded.checked_add(self.kept) == Some(self.calls());
        self.life.wrong == 0 && all && ended
    }

    /// How many calls the shares tell together.
    fn calls(&self) -> u64 {
        let mut calls = 0u64;
        for count in self.told {
            calls = calls.wrapping_add(count);
        }
        calls
    }

    /// The figures of two rounds together.
    pub fn and(self, other: Figures) -> Figures {
        let mut told = self.told;
        for (sum, count) in told.iter_mut().zip(other.told) {
            *sum = sum.wrapping_add(count);
        }
        Figures {
            life: self.life.and(other.life),
            frames: self.frames.wrapping_add(other.frames),
            folds: self.folds.wrapping_add(other.folds),
            folded: self.folded.wrapping_add(other.folded),
            kept: self.kept.wrapping_add(other.kept),
            told,
            replays: other.replays,
        }
    }
}

/// Prints the figures of rounds that came out right and took so many seconds.
pub fn print<W: Write>(
    out: &mut W,
    kind: Kind,
    figures: &Figures,
    rounds: u64,
    seconds: u64,
) -> io::Result<()> {
    let calls = figures.calls();
    let [ports, driver, pump, service] = figures.told;
    let a_second = calls / u64::max(seconds, 1);
    let Figures {
        folded,
        kept,
        folds,
        frames,
        life,
        ..
    } = figures;
    writeln!(
        out,
        "{kind:?}: rounds {rounds}, seconds {seconds}, all right"
    )?;
    writeln!(out, "calls {calls}, a second {a_second}")?;
    writeln!(
        out,
        "of ports {ports}, driver {driver}, pump {pump}, service {service}"
    )?;
    writeln!(out, "folded {folded}, kept {kept}, folds {folds}")?;
    writeln!(
        out,
        "frames sent from the wire {frames}, messages taken {}",
        life.messages
    )?;
    writeln!(
        out,
        "guests' turns that found the history full {}",
        life.full
    )
}
