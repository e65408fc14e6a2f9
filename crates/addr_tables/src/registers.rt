//! The registers of this crate: where they stand, what a write keeps, and their bits (82599 datasheet, Receive
//! Registers).
use wire_frame::Row;

/// RAL, receive address low: bytes 0 to 3 of an entry's address, byte 0 in bits 7:0.
pub const RAL: Row = Row {
    first: 0xA200,
    count: 128,
    stride: 8,
    mask: 0xFFFF_FFFF,
};
/// RAH, receive address high: bytes 4 and 5 in bits 15:0, and whether the entry is valid.
pub const RAH: Row = Row {
    first: 0xA204,
    count: 128,
    stride: 8,
    mask: 0x8000_FFFF,
};
/// MPSAR, the pools of an entry: two words each, pools 0 to 31 and pools 32 to 63.
pub const MPSAR: Row = Row {
    first: 0xA600,
    count: 256,
    stride: 4,
    mask: 0xFFFF_FFFF,
};
/// MTA, the multicast table: one bit for each of the 4096 hashes.
pub const MTA: Row = Row {
    first: 0x5200,
    count: 128,
    stride: 4,
    mask: 0xFFFF_FFFF,
};
/// MCSTCTRL, multicast control: which bits of an address are its hash, and whether the multicast table is used.
pub const MCSTCTRL: u32 = 0x5090;
/// The bits of MCSTCTRL that a write keeps: MO in bits 1:0, and MFE.
pub const MCSTCTRL_KEPT: u32 = 7;
/// Bit AV of RAH: the entry is valid.
pub const VALID: u32 = 31;
/// Bit MFE of MCSTCTRL: the multicast table is used.
pub const MFE: u32 = 2;
/// How many bits of an address are its hash.
pub const HASH_SIZE: u32 = 12;
