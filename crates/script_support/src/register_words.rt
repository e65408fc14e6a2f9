//! What scripts write to registers, the mailbox of a function, and registers by their names.
use crate::registers::NAMES;

/// The memory of a function's mailbox: 16 words, 4 apart.
pub const VFMBMEM: u32 = 0x200;
/// The state of its mailbox.
pub const VFMAILBOX: u32 = 0x2FC;

/// What turns a queue on, in RXDCTL and TXDCTL.
pub const ENABLE: u32 = 0x0200_0000;
/// Descriptors with one buffer, in SRRCTL beside the buffer's size in KiB.
pub const ADVANCED: u32 = 0x0200_0000;
/// The entry is valid, in RAH and VLVF.
pub const VALID: u32 = 0x8000_0000;
/// Receive queue 0 raises vector 0, and transmit queue 0 vector 1, in VTIVAR.
pub const ROUTES: u32 = 0x8180;

/// The offset of the register of that name, if it is one.
pub fn offset_of(name: &str) -> Option<u32> {
    for (of, offset) in &NAMES {
        if *of == name {
            return Some(*offset);
        }
    }
    None
}
