//! The registers that scripts write and read, by the datasheet's names:
//! made by bindings/registers from bindings/registers.txt.
//!
//! They are the numbers of that table, and not those of the device's code: what uses them would see a register that stands
//! elsewhere. Offsets are in bytes; of an array of the physical function it is that of the first register.
pub use crate::register_words::{ADVANCED, ENABLE, ROUTES, VALID, VFMAILBOX, VFMBMEM, offset_of};

/// Control.
pub const VFCTRL: u32 = 0x0;
/// State of the link.
pub const VFLINKS: u32 = 0x10;
/// Interrupt causes: a read takes them away.
pub const VTEICR: u32 = 0x100;
/// Raises interrupt causes.
pub const VTEICS: u32 = 0x104;
/// Enables interrupt vectors.
pub const VTEIMS: u32 = 0x108;
/// Disables interrupt vectors.
pub const VTEIMC: u32 = 0x10C;
/// The causes that are cleared automatically.
pub const VTEIAC: u32 = 0x110;
/// The vectors that are masked automatically.
pub const VTEIAM: u32 = 0x114;
/// The vectors of the queues.
pub const VTIVAR: u32 = 0x120;
/// The vector of the cause "other", which the mailbox raises.
pub const VTIVAR_MISC: u32 = 0x140;
/// How far apart the messages of a vector are to be; number 0.
pub const VTEITR0: u32 = 0x820;
/// How far apart the messages of a vector are to be; number 1.
pub const VTEITR1: u32 = 0x824;
/// How far apart the messages of a vector are to be; number 2.
pub const VTEITR2: u32 = 0x828;
/// Receive ring: the low half of its base; number 0.
pub const RDBAL0: u32 = 0x1000;
/// Receive ring: the low half of its base; number 1.
pub const RDBAL1: u32 = 0x1040;
/// Receive ring: the high half of its base; number 0.
pub const RDBAH0: u32 = 0x1004;
/// Receive ring: the high half of its base; number 1.
pub const RDBAH1: u32 = 0x1044;
/// Receive ring: its length in bytes; number 0.
pub const RDLEN0: u32 = 0x1008;
/// Receive ring: its length in bytes; number 1.
pub const RDLEN1: u32 = 0x1048;
/// Receive ring: its head; number 0.
pub const RDH0: u32 = 0x1010;
/// Receive ring: its head; number 1.
pub const RDH1: u32 = 0x1050;
/// Receive buffers; number 0.
pub const SRRCTL0: u32 = 0x1014;
/// Receive buffers; number 1.
pub const SRRCTL1: u32 = 0x1054;
/// Receive ring: its tail; number 0.
pub const RDT0: u32 = 0x1018;
/// Receive ring: its tail; number 1.
pub const RDT1: u32 = 0x1058;
/// Frames received.
pub const VFGPRC: u32 = 0x101C;
/// Receive queue; number 0.
pub const RXDCTL0: u32 = 0x1028;
/// Receive queue; number 1.
pub const RXDCTL1: u32 = 0x1068;
/// Transmit ring: the low half of its base; number 0.
pub const TDBAL0: u32 = 0x2000;
/// Transmit ring: the low half of its base; number 1.
pub const TDBAL1: u32 = 0x2040;
/// Transmit ring: the high half of its base; number 0.
pub const TDBAH0: u32 = 0x2004;
/// Transmit ring: the high half of its base; number 1.
pub const TDBAH1: u32 = 0x2044;
/// Transmit ring: its length in bytes; number 0.
pub const TDLEN0: u32 = 0x2008;
/// Transmit ring: its length in bytes; number 1.
pub const TDLEN1: u32 = 0x2048;
/// Transmit ring: its head; number 0.
pub const TDH0: u32 = 0x2010;
/// Transmit ring: its head; number 1.
pub const TDH1: u32 = 0x2050;
/// Transmit ring: its tail; number 0.
pub const TDT0: u32 = 0x2018;
/// Transmit ring: its tail; number 1.
pub const TDT1: u32 = 0x2058;
/// Frames sent.
pub const VFGPTC: u32 = 0x201C;
/// Transmit queue; number 0.
pub const TXDCTL0: u32 = 0x2028;
/// Transmit queue; number 1.
pub const TXDCTL1: u32 = 0x2068;
/// The functions that were reset; number 0.
pub const PFVFLRE0: u32 = 0x600;
/// The functions that were reset; number 1.
pub const PFVFLRE1: u32 = 0x1C0;
/// Clears bits of PFVFLRE.
pub const PFVFLREC: u32 = 0x700;
/// VLAN control.
pub const VLNCTRL: u32 = 0x5088;
/// Multicast control.
pub const MCSTCTRL: u32 = 0x5090;
/// Virtualization control.
pub const PF_VT_CTL: u32 = 0x51B0;
/// The pools that may receive.
pub const PFVFRE: u32 = 0x51E0;
/// The multicast table.
pub const MTA: u32 = 0x5200;
/// The port VLAN of a pool.
pub const VMVIR: u32 = 0x8000;
/// The pools that may transmit.
pub const PFVFTE: u32 = 0x8110;
/// The pools whose sources are checked.
pub const PFVFSPOOF: u32 = 0x8200;
/// Switching.
pub const PFDTXGSWC: u32 = 0x8220;
/// The VLAN table.
pub const VFTA: u32 = 0xA000;
/// Receive address: bytes 0 to 3.
pub const RAL: u32 = 0xA200;
/// Receive address: bytes 4 and 5.
pub const RAH: u32 = 0xA204;
/// The pools of a receive address, 32 in a word.
pub const MPSAR: u32 = 0xA600;
/// What a pool accepts.
pub const VMOLR: u32 = 0xF000;
/// A VLAN entry.
pub const VLVF: u32 = 0xF100;
/// The pools of a VLAN entry, 32 in a word.
pub const VLVFB: u32 = 0xF200;

/// The registers by name.
pub static NAMES: [(&str, u32); 60] = [
    ("VFCTRL", VFCTRL),
    ("VFLINKS", VFLINKS),
    ("VTEICR", VTEICR),
    ("VTEICS", VTEICS),
    ("VTEIMS", VTEIMS),
    ("VTEIMC", VTEIMC),
    ("VTEIAC", VTEIAC),
    ("VTEIAM", VTEIAM),
    ("VTIVAR", VTIVAR),
    ("VTIVAR_MISC", VTIVAR_MISC),
    ("VTEITR0", VTEITR0),
    ("VTEITR1", VTEITR1),
    ("VTEITR2", VTEITR2),
    ("RDBAL0", RDBAL0),
    ("RDBAL1", RDBAL1),
    ("RDBAH0", RDBAH0),
    ("RDBAH1", RDBAH1),
    ("RDLEN0", RDLEN0),
    ("RDLEN1", RDLEN1),
    ("RDH0", RDH0),
    ("RDH1", RDH1),
    ("SRRCTL0", SRRCTL0),
    ("SRRCTL1", SRRCTL1),
    ("RDT0", RDT0),
    ("RDT1", RDT1),
    ("VFGPRC", VFGPRC),
    ("RXDCTL0", RXDCTL0),
    ("RXDCTL1", RXDCTL1),
    ("TDBAL0", TDBAL0),
    ("TDBAL1", TDBAL1),
    ("TDBAH0", TDBAH0),
    ("TDBAH1", TDBAH1),
    ("TDLEN0", TDLEN0),
    ("TDLEN1", TDLEN1),
    ("TDH0", TDH0),
    ("TDH1", TDH1),
    ("TDT0", TDT0),
    ("TDT1", TDT1),
    ("VFGPTC", VFGPTC),
    ("TXDCTL0", TXDCTL0),
    ("TXDCTL1", TXDCTL1),
    ("PFVFLRE0", PFVFLRE0),
    ("PFVFLRE1", PFVFLRE1),
    ("PFVFLREC", PFVFLREC),
    ("VLNCTRL", VLNCTRL),
    ("MCSTCTRL", MCSTCTRL),
    ("PF_VT_CTL", PF_VT_CTL),
    ("PFVFRE", PFVFRE),
    ("MTA", MTA),
    ("VMVIR", VMVIR),
    ("PFVFTE", PFVFTE),
    ("PFVFSPOOF", PFVFSPOOF),
    ("PFDTXGSWC", PFDTXGSWC),
    ("VFTA", VFTA),
    ("RAL", RAL),
    ("RAH", RAH),
    ("MPSAR", MPSAR),
    ("VMOLR", VMOLR),
    ("VLVF", VLVF),
    ("VLVFB", VLVFB),
];
