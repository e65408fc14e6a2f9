//! Frames that left, as C gets them.
ghost use Rattle.std.specs.Prelude.{◌≡◌};
ghost use Rattle.vfdev_c.specs.CardCalls.{frame_in_room};
ghost use Rattle.vfdev_c.specs.Handle.{frame_in, length_in};

use live_run::Frames;

// Lays a frame that left into the first bytes of `out`, where there is such a frame and room for it, and tells its length.
pub(crate) fn lay_left(frames: &Frames, number: u32, out: &mut [u8]) -> usize
    ensures length { result ≡ length_in (frame_in_room number out.old frames.now) }
    ensures bytes { out.new ≡ frame_in (frame_in_room number out.old frames.now) out.old }
{
    if number as usize >= frames.len() {
        return 0;
    }
    let bytes = frames.frame(number as usize);
    if bytes.len() > out.len() {
        return 0;
    }
    out[..bytes.len()].copy_from_slice(bytes);
    bytes.len()
}
