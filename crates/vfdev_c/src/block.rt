//! A block that C hands over.
ghost use Rattle.std.specs.Prelude.{◌≡◌, ℕ, List, ◌<◌, ◌^◌};
ghost use Rattle.vfdev_c.specs.Ownership.{block_owns};

use std::marker::Model;

/// A block of bytes that C hands over: from then on they are those of who has the block. It has fewer than 2^63 bytes.
#[repr(C)]
#[derive(Drop)]
pub struct Block {
    at: *mut u8,
    len: usize,
    pub ghost bytes: { List ℕ },
    ghost small: { len < 2 ^ 63 },
}

impl Model for Block {
    ghost also_owns = { λ h. block_owns h.at h.len h.bytes };
}

impl Block {
    /// The bytes, for as long as they are wanted.
    pub fn into_cells<'a>(self) -> &'a mut [u8]
        ensures { result.now ≡ self.bytes }
    {
        let Block { at, len } = self;
        unsafe { std::slice::from_raw_parts_mut(at, len) }
    }
}
