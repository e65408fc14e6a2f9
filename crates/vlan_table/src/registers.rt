//! The registers of this crate: where they stand, what a write keeps, and their bits (82599 datasheet, Receive Registers
//! and Virtualization PF Registers).
use wire_frame::Row;

/// VLNCTRL, VLAN control: whether VLANs are filtered.
pub const VLNCTRL: u32 = 0x5088;
/// The bits of VLNCTRL that a write keeps: VFE.
pub const VLNCTRL_KEPT: u32 = 0x4000_0000;
/// VFTA, the VLAN table: bit j of word i is for VLAN id 32i + j.
pub const VFTA: Row = Row {
    first: 0xA000,
    count: 128,
    stride: 4,
    mask: 0xFFFF_FFFF,
};
/// VLVF, the VLAN entries: an id in bits 11:0, and whether the entry is valid.
pub const VLVF: Row = Row {
    first: 0xF100,
    count: 64,
    stride: 4,
    mask: 0x8000_0FFF,
};
/// VLVFB, the pools of a VLAN entry: two words each, pools 0 to 31 and pools 32 to 63.
pub const VLVFB: Row = Row {
    first: 0xF200,
    count: 128,
    stride: 4,
    mask: 0xFFFF_FFFF,
};
/// Bit VFE of VLNCTRL: VLANs are filtered.
pub const VFE: u32 = 30;
/// Bit VI_En of VLVF: the entry is valid.
pub const VALID: u32 = 31;
