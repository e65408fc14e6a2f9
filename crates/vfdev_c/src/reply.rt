//! A reply, as C sees it.
ghost use Rattle.std.specs.Prelude.{◌≡◌, ℕ, List};
ghost use Rattle.device.specs.Outcome.{bytes_or_refused, reply_of};
ghost use Rattle.vfdev_c.specs.Handle.{shown, numbered, no_device, no_room, no_queue, history_full, refused_as};

use device::Outcome;
use wire_frame::Fault;

/// A reply, as C sees it.
#[repr(C)]
#[derive(Clone, Copy, Debug, PartialEq, Eq)]
pub struct VfdevReply {
    /// 0 done, 1 a register's value, 2 bytes, 3 idle, 4 more, 5 sent, 6 dropped, 7 faulted, 8 refused; 9 no device, 10 no
    /// room, 11 no such queue, 12 no more calls can be kept.
    pub kind: u32,
    /// The value of the register, or the number of the fault, and else 0.
    pub value: u32,
}

impl VfdevReply {
    /// It was done.
    #[inline]
    pub fn done() -> VfdevReply
        ensures { result ≡ numbered 0 0 }
    {
        VfdevReply { kind: 0, value: 0 }
    }

    /// The value of a register.
    #[inline]
    pub fn value(value: u32) -> VfdevReply
        ensures { result ≡ numbered 1 value }
    {
        VfdevReply { kind: 1, value }
    }

    /// The bytes stand where they were asked.
    #[inline]
    pub fn bytes() -> VfdevReply
        ensures { result ≡ numbered 2 0 }
    {
        VfdevReply { kind: 2, value: 0 }
    }

    /// The bytes stand where they were asked, or the read was refused.
    #[inline(always)]
    pub fn read(done: Result<(), Fault>) -> VfdevReply
        ensures { (cells : List ℕ) → result ≡ shown (bytes_or_refused done cells) }
    {
        match done {
            Ok(()) => VfdevReply::bytes(),
            Err(fault) => VfdevReply::refused(fault),
        }
    }

    /// There is no device.
    #[inline]
    pub fn no_device() -> VfdevReply
        ensures { result ≡ no_device }
    {
        VfdevReply { kind: 9, value: 0 }
    }

    /// There is no room for a frame, or for the messages.
    #[inline]
    pub fn no_room() -> VfdevReply
        ensures { result ≡ no_room }
    {
        VfdevReply { kind: 10, value: 0 }
    }

    /// There is no queue of that number.
    #[inline]
    pub fn no_queue() -> VfdevReply
        ensures { result ≡ no_queue }
    {
        VfdevReply { kind: 11, value: 0 }
    }

    /// No more calls can be kept.
    #[inline]
    pub fn history_full() -> VfdevReply
        ensures { result ≡ history_full }
    {
        VfdevReply { kind: 12, value: 0 }
    }

    /// A refusal.
    #[inline]
    pub fn refused(fault: Fault) -> VfdevReply
        ensures { result ≡ refused_as fault }
    {
        VfdevReply {
            kind: 8,
            value: u32::from(fault.number()),
        }
    }

    /// What an outcome stands for.
    #[inline(always)]
    pub fn of(outcome: Outcome) -> VfdevReply
        ensures { (cells : List ℕ) → result ≡ shown (reply_of cells outcome) }
    {
        match outcome {
            Outcome::Done => VfdevReply::done(),
            Outcome::Value(value) => VfdevReply::value(value),
            Outcome::Bytes(_) => VfdevReply::bytes(),
            Outcome::Idle => VfdevReply { kind: 3, value: 0 },
            Outcome::More => VfdevReply { kind: 4, value: 0 },
            Outcome::Sent => VfdevReply { kind: 5, value: 0 },
            Outcome::Dropped => VfdevReply { kind: 6, value: 0 },
            Outcome::Faulted => VfdevReply { kind: 7, value: 0 },
            Outcome::Refused(fault) => VfdevReply::refused(fault),
        }
    }
}
