//! The device that a script asks for.
ghost use Rattle.std.specs.Prelude.{◌≡◌, ◌≤◌, true, Some, None, MatchResult, ok_or, option_copied};
ghost use Rattle.guest_memory.specs.Memory.{is_memory_size};
ghost use Rattle.script.specs.Reading.{limit_of};

use crate::fault::Refusal;
use crate::numbers::number;
use crate::words::{Words, size, up_to};
use guest_memory::is_memory_size;
use wire_frame::FrameLimit;

/// The device that a script asks for. That one can be made so is a fact of the type.
#[derive(Clone, Copy, Debug, PartialEq, Eq)]
pub struct Shape {
    /// How many virtual functions it has, 1 to 64.
    pub functions: u8,
    /// The size of the memory of each, in bytes: 4096 to 16,777,216, a multiple of 128.
    pub memory_size: u64,
    /// How long its frames may be.
    pub limit: FrameLimit,
    pub ghost least: { 1 ≤ functions },
    pub ghost most: { functions ≤ 64 },
    pub ghost size: { is_memory_size memory_size ≡ true },
}

impl Shape {
    ghost use Rattle.script.specs.Reading.{device_of};
    ghost use Rattle.script.specs.Shapes.{asked_by};

    // The device that the words after `vfs` ask for.
    pub(crate) fn of_words(words: Words<'_>) -> Result<Shape, Refusal>
        ensures { MatchResult result (λ shape. device_of words.entry ≡ Some (asked_by shape))
            (λ e. (e ≡ Refusal.BadLine) × (device_of words.entry ≡ None)) }
    {
        let (functions, bytes, limit) = words.two_or_three()?;
        let functions = up_to(64, functions)? as u8;
        let memory_size = size(bytes)?;
        let limit = frame_limit(limit)?;
        if functions == 0 || !is_memory_size(memory_size) {
            return Err(Refusal::BadLine);
        }
        Ok(Shape {
            functions,
            memory_size,
            limit,
        })
    }
}

// How long frames may be: 1518 bytes, or as many as the word says, if there is one.
fn frame_limit(word: Option<&[u8]>) -> Result<FrameLimit, Refusal>
    ensures { result ≡ ok_or (limit_of (option_copied word.entry)) Refusal.BadLine }
{
    let Some(word) = word else {
        return Ok(FrameLimit::standard());
    };
    let bytes = up_to(u64::from(u16::MAX), word)?;
    FrameLimit::new(bytes as u16).ok_or(Refusal::BadLine)
}
