//! The kinds of events that are measured.
use pool_filter::registers::PF_VT_CTL_INITIAL;
use wire_frame::PoolSet;

/// A kind of events.
#[derive(Clone, Copy, Debug, PartialEq, Eq)]
pub enum Workload {
    /// Reads RDH of a receive queue.
    VfRead,
    /// Writes RDT of a receive queue.
    VfWrite,
    /// Reads PF_VT_CTL.
    PfRead,
    /// Writes VMOLR of a pool.
    PfWrite,
    /// Reads 2048 bytes of a guest's memory.
    MemRead,
    /// Writes 2048 bytes of a guest's memory.
    MemWrite,
    /// A frame of 60 bytes from the wire, for one pool.
    WireShort,
    /// A frame of 1518 bytes from the wire, for one pool.
    WireLong,
    /// A broadcast of 60 bytes from the wire, for all 64 pools.
    Broadcast,
    /// A service that sends a frame of 60 bytes, which goes to another pool by loopback.
    Service,
}

/// All of them.
pub const WORKLOADS: [Workload; 10] = [
    Workload::VfRead,
    Workload::VfWrite,
    Workload::PfRead,
    Workload::PfWrite,
    Workload::MemRead,
    Workload::MemWrite,
    Workload::WireShort,
    Workload::WireLong,
    Workload::Broadcast,
    Workload::Service,
];

impl Workload {
    /// Its name on the command line and in the output.
    pub fn name(self) -> &'static str {
        match self {
            Workload::VfRead => "vf-read",
            Workload::VfWrite => "vf-write",
            Workload::PfRead => "pf-read",
            Workload::PfWrite => "pf-write",
            Workload::MemRead => "mem-read",
            Workload::MemWrite => "mem-write",
            Workload::WireShort => "wire-60",
            Workload::WireLong => "wire-1518",
            Workload::Broadcast => "broadcast",
            Workload::Service => "service",
        }
    }

    /// How many functions are open.
    pub fn pools(self) -> u8 {
        match self {
            Workload::Broadcast => 64,
            _ => 2,
        }
    }

    /// The pools that get a message for each event.
    pub fn messages(self) -> PoolSet {
        PoolSet::from_bits(match self {
            Workload::WireShort | Workload::WireLong => 1 << RECEIVER,
            Workload::Broadcast => u64::MAX,
            Workload::Service => 1 << SENDER | 1 << RECEIVER,
            _ => 0,
        })
    }

    /// The value that each event reads, if it reads a register, and else 0.
    pub fn value(self) -> u32 {
        match self {
            // replication and virtualization are on, and the default pool is off
            Workload::PfRead => PF_VT_CTL_INITIAL,
            _ => 0,
        }
    }
}

/// The pool that sends, and whose registers and memory are read and written.
pub const SENDER: u8 = 0;
/// The pool that frames are for, where they are for one.
pub const RECEIVER: u8 = 1;
