//! The registers of this crate: where they stand, what a write keeps, and their bits (82599 datasheet, Virtualization PF
//! Registers).
use wire_frame::Row;

/// PF_VT_CTL, control of virtualization: the default pool.
pub const PF_VT_CTL: u32 = 0x51B0;
/// The bits of PF_VT_CTL that a write keeps: DEF_PL in bits 12:7, and the bit that turns the default pool off.
pub const PF_VT_CTL_KEPT: u32 = 0x2000_1F80;
/// The bits of PF_VT_CTL that are always 1: virtualization and replication are on.
pub const PF_VT_CTL_SET: u32 = 0x4000_0001;
/// PF_VT_CTL as a device is made: the default pool is off.
pub const PF_VT_CTL_INITIAL: u32 = 0x6000_0001;
/// PFVFRE, receive enable: bit j of word i is for pool 32i + j.
pub const PFVFRE: Row = Row {
    first: 0x51E0,
    count: 2,
    stride: 4,
    mask: 0xFFFF_FFFF,
};
/// VMVIR, the port VLAN of a pool: a tag control in bits 15:0, and the rule in bits 31:30.
pub const VMVIR: Row = Row {
    first: 0x8000,
    count: 64,
    stride: 4,
    mask: 0xC000_FFFF,
};
/// PFVFTE, transmit enable: bit j of word i is for pool 32i + j.
pub const PFVFTE: Row = Row {
    first: 0x8110,
    count: 2,
    stride: 4,
    mask: 0xFFFF_FFFF,
};
/// PFVFSPOOF, the checks on senders: bit j of word i is the address check of pool 8i + j, and bit 8 + j its VLAN check.
pub const PFVFSPOOF: Row = Row {
    first: 0x8200,
    count: 8,
    stride: 4,
    mask: 0xFFFF,
};
/// PFDTXGSWC, control of switching between pools.
pub const PFDTXGSWC: u32 = 0x8220;
/// The bits of PFDTXGSWC that a write keeps: LBE.
pub const PFDTXGSWC_KEPT: u32 = 1;
/// VMOLR, the flags of a pool: those of [`crate::PoolFlags`].
pub const VMOLR: Row = Row {
    first: 0xF000,
    count: 64,
    stride: 4,
    mask: (1 << AUPE) | (1 << ROMPE) | (1 << BAM) | (1 << MPE),
};
/// Bit AUPE of VMOLR: the pool takes untagged frames.
pub const AUPE: u32 = 24;
/// Bit ROMPE of VMOLR: the pool takes multicast frames by the multicast table.
pub const ROMPE: u32 = 25;
/// Bit BAM of VMOLR: the pool takes broadcast frames.
pub const BAM: u32 = 27;
/// Bit MPE of VMOLR: the pool takes all multicast frames.
pub const MPE: u32 = 28;
/// The lowest bit of VMVIR's rule, bits 31:30.
pub const PORT_VLAN_RULE: u32 = 30;
/// How many bits VMVIR's rule has.
pub const PORT_VLAN_RULE_SIZE: u32 = 2;
/// The rule of VMVIR that always inserts its tag.
pub const ALWAYS: u32 = 1;
/// The rule of VMVIR that inserts none.
pub const NEVER: u32 = 2;
/// The lowest bit of DEF_PL of PF_VT_CTL, bits 12:7: the default pool.
pub const DEFAULT_POOL: u32 = 7;
/// How many bits DEF_PL has.
pub const DEFAULT_POOL_SIZE: u32 = 6;
/// Bit DIS_DEF_POOL of PF_VT_CTL: there is no default pool.
pub const DEFAULT_POOL_OFF: u32 = 29;
/// Bit LBE of PFDTXGSWC: frames go from pool to pool.
pub const LOOPBACK: u32 = 0;
/// PFVFLRE, which functions were reset: its word of functions 0 to 31.
pub const PFVFLRE_LOW: u32 = 0x600;
/// PFVFLRE, its word of functions 32 to 63.
pub const PFVFLRE_HIGH: u32 = 0x1C0;
/// PFVFLREC, which clears PFVFLRE: its word of functions 0 to 31.
pub const PFVFLREC_LOW: u32 = 0x700;
/// PFVFLREC, its word of functions 32 to 63.
pub const PFVFLREC_HIGH: u32 = 0x704;
