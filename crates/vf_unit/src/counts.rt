//! What a function counts: the frames that came and went, what was lost, and by which fault a queue was last stopped.
ghost use Rattle.std.specs.Prelude.{◌≡◌};
ghost use Rattle.vf_unit.specs.Counts.{no_losses, turned_away, sender_refused, stopped, no_counts};

use crate::registers::Queue;
use tx_desc::Misuse;

/// Why a queue was stopped.
#[derive(Clone, Copy, Debug, PartialEq, Eq)]
pub enum QueueFault {
    /// A frame came to receive queue 0, and the buffer of a descriptor that it needed passes the end of the memory.
    Receive,
    /// A descriptor of a transmit queue cannot be used.
    Transmit(Queue, Misuse),
}

/// What was lost since the function was opened, its guest came or it was reset.
#[derive(Clone, Copy, Debug, PartialEq, Eq)]
pub struct Losses {
    /// How many frames came and found no room, modulo 2^32: the queue is off, or has too few descriptors or no size of buffers.
    pub no_room: u32,
    /// How many of its frames the sender's check refused, modulo 2^32.
    pub refused: u32,
    /// How often a fault stopped a queue, modulo 2^32.
    pub faults: u32,
    /// The last such fault.
    pub last_fault: Option<QueueFault>,
}

/// What a function has counted since it was opened, its guest came or it was reset. Each number is modulo 2^32.
///
/// A frame that comes to an open function is counted once: in `received`, in `no_room`, or in `faults` where it stopped receive queue 0.
#[derive(Clone, Copy, Debug, PartialEq, Eq)]
pub struct Counts {
    /// How many frames were placed in its receive queue, as VFGPRC reads.
    pub received: u32,
    /// How many of its frames were sent, as VFGPTC reads.
    pub sent: u32,
    /// How many frames came and found no room: the queue is off, or has too few descriptors or no size of buffers.
    pub no_room: u32,
    /// How many of its frames the sender's check refused.
    pub refused: u32,
    /// How often a fault stopped a queue.
    pub faults: u32,
    /// The last such fault.
    pub last_fault: Option<QueueFault>,
    /// How often something that its driver left to the card could not be done: sums that a frame then lacks, or segments, where the whole
    /// frame is dropped.
    pub shortfalls: u32,
}

impl Losses {
    /// None.
    pub fn none() -> Losses
        ensures { result ≡ no_losses }
    {
        Losses {
            no_room: 0,
            refused: 0,
            faults: 0,
            last_fault: None,
        }
    }

    /// A frame came and found no room.
    #[inline]
    pub fn turn_away(&mut self)
        ensures { self.new ≡ turned_away self.old }
    {
        self.no_room = self.no_room.wrapping_add(1);
    }

    /// The sender's check refused a frame.
    #[inline]
    pub fn refuse(&mut self)
        ensures { self.new ≡ sender_refused self.old }
    {
        self.refused = self.refused.wrapping_add(1);
    }

    /// A fault stopped a queue.
    #[inline]
    pub fn stop(&mut self, fault: QueueFault)
        ensures { self.new ≡ stopped fault self.old }
    {
        self.faults = self.faults.wrapping_add(1);
        self.last_fault = Some(fault);
    }
}

impl Counts {
    /// Nothing was counted.
    pub fn none() -> Counts
        ensures { result ≡ no_counts }
    {
        Counts {
            received: 0,
            sent: 0,
            no_room: 0,
            refused: 0,
            faults: 0,
            last_fault: None,
            shortfalls: 0,
        }
    }
}
