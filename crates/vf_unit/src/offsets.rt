//! The register map of a virtual function: where each register stands, and the bits that it has (82599 datasheet, device
//! registers of the VF).

/// Control: bit 26 resets the function.
pub const VFCTRL: u32 = 0x0;
/// Link status, which always reads as up at 10 Gb/s.
pub const VFLINKS: u32 = 0x10;
/// Causes that stand.
pub const VTEICR: u32 = 0x100;
/// Raises causes.
pub const VTEICS: u32 = 0x104;
/// Enables messages.
pub const VTEIMS: u32 = 0x108;
/// Disables messages.
pub const VTEIMC: u32 = 0x10C;
/// Causes that are cleared automatically.
pub const VTEIAC: u32 = 0x110;
/// Vectors that are masked automatically.
pub const VTEIAM: u32 = 0x114;
/// Vectors of the queues, a byte each.
pub const VTIVAR: u32 = 0x120;
/// Vector of the cause "other", which the host raises.
pub const VTIVAR_MISC: u32 = 0x140;
/// How far apart the messages of vector 0 are to be.
pub const VTEITR0: u32 = 0x820;
/// How far apart the messages of vector 1 are to be.
pub const VTEITR1: u32 = 0x824;
/// How far apart the messages of vector 2 are to be.
pub const VTEITR2: u32 = 0x828;
/// Good packets received.
pub const VFGPRC: u32 = 0x101C;
/// Good packets transmitted.
pub const VFGPTC: u32 = 0x201C;

/// Receive descriptor base, low half, of queue 0.
pub const RDBAL0: u32 = 0x1000;
/// Receive descriptor base, high half, of queue 0.
pub const RDBAH0: u32 = 0x1004;
/// Receive descriptor length of queue 0.
pub const RDLEN0: u32 = 0x1008;
/// Receive descriptor head of queue 0.
pub const RDH0: u32 = 0x1010;
/// Split and replication receive control of queue 0.
pub const SRRCTL0: u32 = 0x1014;
/// Receive descriptor tail of queue 0.
pub const RDT0: u32 = 0x1018;
/// Receive descriptor control of queue 0.
pub const RXDCTL0: u32 = 0x1028;
/// Receive descriptor base, low half, of queue 1.
pub const RDBAL1: u32 = 0x1040;
/// Receive descriptor base, high half, of queue 1.
pub const RDBAH1: u32 = 0x1044;
/// Receive descriptor length of queue 1.
pub const RDLEN1: u32 = 0x1048;
/// Receive descriptor head of queue 1.
pub const RDH1: u32 = 0x1050;
/// Split and replication receive control of queue 1.
pub const SRRCTL1: u32 = 0x1054;
/// Receive descriptor tail of queue 1.
pub const RDT1: u32 = 0x1058;
/// Receive descriptor control of queue 1.
pub const RXDCTL1: u32 = 0x1068;

/// Transmit descriptor base, low half, of queue 0.
pub const TDBAL0: u32 = 0x2000;
/// Transmit descriptor base, high half, of queue 0.
pub const TDBAH0: u32 = 0x2004;
/// Transmit descriptor length of queue 0.
pub const TDLEN0: u32 = 0x2008;
/// Transmit descriptor head of queue 0.
pub const TDH0: u32 = 0x2010;
/// Transmit descriptor tail of queue 0.
pub const TDT0: u32 = 0x2018;
/// Transmit descriptor control of queue 0.
pub const TXDCTL0: u32 = 0x2028;
/// Transmit descriptor base, low half, of queue 1.
pub const TDBAL1: u32 = 0x2040;
/// Transmit descriptor base, high half, of queue 1.
pub const TDBAH1: u32 = 0x2044;
/// Transmit descriptor length of queue 1.
pub const TDLEN1: u32 = 0x2048;
/// Transmit descriptor head of queue 1.
pub const TDH1: u32 = 0x2050;
/// Transmit descriptor tail of queue 1.
pub const TDT1: u32 = 0x2058;
/// Transmit descriptor control of queue 1.
pub const TXDCTL1: u32 = 0x2068;

/// Bit of VFCTRL: reset.
pub const RST: u32 = 26;
/// Bit of RXDCTL and TXDCTL: the queue is on.
pub const ENABLE: u32 = 25;
/// Bit of RXDCTL: VLAN tags are stripped.
pub const VME: u32 = 30;
/// What VFLINKS reads: the link is up, at 10 Gb/s.
pub const LINK_UP: u32 = 0x7000_0000;
/// The bit of SRRCTL that always reads 1: drop enable.
pub const DROP_EN: u32 = 28;
/// The lowest bit of SRRCTL's descriptor type, bits 27:25.
pub const DESCTYPE: u32 = 25;
/// The descriptor type of legacy descriptors.
pub const LEGACY: u32 = 0;
/// The descriptor type of advanced descriptors with one buffer.
pub const ADVANCED: u32 = 1;
/// The bits of SRRCTL that a write keeps: buffer size and descriptor type.
pub const SRRCTL_KEPT: u32 = 0x0E00_001F;
/// The bits of VTIVAR that a write keeps: of each byte the vector, and whether it is valid.
pub const VTIVAR_KEPT: u32 = 0x8383_8383;
/// How many buffer sizes SRRCTL has in bits 4:0 (BSIZEPACKET), in KiB.
pub const BUFFER_SIZES: u32 = 32;
/// The least size of a buffer, in KiB.
pub const LEAST_BUFFER: u32 = 1;
/// The largest size of a buffer, in KiB.
pub const MOST_BUFFER: u32 = 16;
/// The lowest bit of VTIVAR's byte of receive queue 0.
pub const RECEIVE_VECTOR_0: u32 = 0;
/// The lowest bit of VTIVAR's byte of transmit queue 0.
pub const TRANSMIT_VECTOR_0: u32 = 8;
/// The lowest bit of VTIVAR's byte of transmit queue 1.
pub const TRANSMIT_VECTOR_1: u32 = 24;
/// The lowest bit of the byte of the cause "other" in VTIVAR_MISC.
pub const OTHER_VECTOR: u32 = 0;
/// How many bits a vector has in VTIVAR, with the one that allocates it.
pub const VECTOR_SIZE: u32 = 8;
/// The bits of VTIVAR_MISC that a write keeps.
pub const VTIVAR_MISC_KEPT: u32 = 0x83;
/// What VTEITR keeps: the interval, bits 11:3.
pub const VTEITR_KEPT: u32 = 0xFF8;
