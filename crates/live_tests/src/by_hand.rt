//! The definitions on traces written by hand.
ghost use Rattle.std.specs.Prelude.{◌≡◌, ℕ, List, [], ◌∷◌, true, false};
ghost use Rattle.guest_memory.specs.Memory.{Write};
ghost use Rattle.live_memory.specs.Trace.{Read, Wrote, ReadOnce, met, reads, since, with_access, wrotes};

use std::process::Abort;

// A read, a write over two of four bytes, and a read of another.
#[tactic(auto, unfolding(live_memory::specs::Trace::met, live_memory::specs::Trace::reads, guest_memory::specs::Memory::write_all))]
fn what_is_met()
    ensures reads { reads (Read 0 (1 ∷ []) ∷ Wrote 1 (7 ∷ 8 ∷ []) ∷ Read 3 (9 ∷ []) ∷ [])
        ≡ record { at = 0; bytes = 1 ∷ [] } ∷ record { at = 3; bytes = 9 ∷ [] } ∷ [] }
    ensures since { since (Read 0 (1 ∷ []) ∷ []) (Read 0 (1 ∷ []) ∷ Wrote 1 (7 ∷ []) ∷ [])
        ≡ Wrote 1 (7 ∷ []) ∷ [] }
    ensures met { met (Read 0 (5 ∷ []) ∷ [])
        (Read 0 (5 ∷ []) ∷ Read 0 (1 ∷ []) ∷ Wrote 1 (7 ∷ 8 ∷ []) ∷ Read 3 (9 ∷ []) ∷ [])
        (2 ∷ 2 ∷ 2 ∷ 2 ∷ []) ≡ 1 ∷ 2 ∷ 2 ∷ 9 ∷ [] }
{}

// A memory that others write notes each access behind all that it noted before, and one that nobody else writes notes none.
fn what_is_noted()
    ensures shared { with_access true (Read 0 (1 ∷ []) ∷ []) (Wrote 1 (7 ∷ []))
        ≡ Read 0 (1 ∷ []) ∷ Wrote 1 (7 ∷ []) ∷ [] }
    ensures alone { with_access false (Read 0 (1 ∷ []) ∷ []) (Wrote 1 (7 ∷ [])) ≡ Read 0 (1 ∷ []) ∷ [] }
{}

// Writes in a row are as many accesses, in the same order, also where one covers another or has no bytes.
#[tactic(auto, unfolding(live_memory::specs::Trace::wrotes))]
fn what_is_written()
    ensures each { wrotes (record { at = 2; bytes = 7 ∷ 8 ∷ [] } ∷ record { at = 2; bytes = 9 ∷ [] }
        ∷ record { at = 0; bytes = [] } ∷ [])
        ≡ Wrote 2 (7 ∷ 8 ∷ []) ∷ Wrote 2 (9 ∷ []) ∷ Wrote 0 [] ∷ [] }
{}

// Bytes one beside the other are read once; one byte twice, after it was written or past the end is not.
#[tactic(auto, unfolding(live_memory::specs::Trace::ReadOnce, live_memory::specs::Trace::NotRead))]
fn what_is_read_once()
    ensures once { ReadOnce 4 (Read 0 (1 ∷ 2 ∷ []) ∷ Read 2 (3 ∷ []) ∷ Wrote 0 (7 ∷ []) ∷ []) }
    ensures twice { ReadOnce 4 (Read 0 (1 ∷ 2 ∷ []) ∷ Read 1 (3 ∷ []) ∷ []) → ⊥ }
    ensures written { ReadOnce 4 (Wrote 1 (7 ∷ []) ∷ Read 0 (1 ∷ 7 ∷ []) ∷ []) → ⊥ }
    ensures outside { ReadOnce 4 (Read 3 (4 ∷ 5 ∷ []) ∷ []) → ⊥ }
{}

#[test]
fn definitions_say_what_they_are_meant_to(rt: HostRuntime) {
    what_is_met();
    what_is_noted();
    what_is_written();
    what_is_read_once();
}
