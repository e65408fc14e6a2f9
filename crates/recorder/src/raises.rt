//! The messages of an answer, in the line.
ghost use Rattle.std.specs.Prelude.{◌≡◌, ℕ, ◌+◌, ◌<◌, slice_index};
ghost use Rattle.std.specs.Int.{bit_at};
ghost use Rattle.irq_line.specs.Line.{raised};

use irq_causes::Messages;
use irq_line::DeviceSeat;

// Raises the messages that the pools got.
#[inline]
pub(crate) fn raise_all(line: &mut DeviceSeat, messages: &Messages)
    ensures raised { (p v : ℕ) → p < 64 →
        raised p v line.new.raises
        ≡ raised p v line.old.raises + bit_at (slice_index messages.now p) v }
    ensures line { line.new.line ≡ line.old.line }
{
    for pool in messages.pools() {
        line.raise(pool, messages.to(pool));
    }
}
