//! What a message came to, as C sees it.
ghost use Rattle.std.specs.Prelude.{◌≡◌, ◌≤◌, IfSome};
ghost use Rattle.card.specs.Steps.{count_in};
ghost use Rattle.vfdev_c.specs.CardCalls.{breach_number, count_or, of_kind, order_as, room_after, step_as};

use card::{Order, Step};
use vfio_session::{Breach, ROOM, Settled};
use vfio_user::Access;

/// What a message came to, as C sees it. What a kind doesn't name is 0.
#[repr(C)]
#[derive(Clone, Copy, Debug, PartialEq, Eq)]
pub struct VfdevCardStep {
    /// 0 answered, 1 map, 2 unmap, 3 arm, 4 disarm, 5 ends; 6 no card, 7 no such function.
    pub kind: u32,
    /// How many bytes the reply has; 0 where the client wants none.
    pub reply: u32,
    /// What a device may do with the memory: 1 read it, 2 write it, 3 both.
    pub access: u32,
    /// Why the connection ends.
    pub breach: u32,
    /// How many bytes of the file stand in front of the memory.
    pub offset: u64,
    /// The first guest address.
    pub address: u64,
    /// How many there are.
    pub size: u64,
    /// The first vector.
    pub first: u32,
    /// How many.
    pub count: u32,
}

impl VfdevCardStep {
    // Of that kind, and else 0.
    pub(crate) fn of_kind(kind: u32) -> VfdevCardStep
        ensures { result ≡ of_kind kind }
    {
        VfdevCardStep {
            kind,
            reply: 0,
            access: 0,
            breach: 0,
            offset: 0,
            address: 0,
            size: 0,
            first: 0,
            count: 0,
        }
    }

    /// What a step is. Where something is left to the shell, the reply that is owed is laid in the room.
    pub fn of(step: Step, room: &mut [u8; ROOM]) -> VfdevCardStep
        requires { IfSome (count_in step) (λ count. count ≤ 4128) }
        ensures step { result ≡ step_as step }
        ensures room { room.new ≡ room_after step room.old }
    {
        match step {
            Step::Answered(count) => VfdevCardStep {
                reply: reply_of(count),
                ..VfdevCardStep::of_kind(0)
            },
            Step::Asks(order, owed) => VfdevCardStep {
                reply: reply_of(owed.answer(Settled::Finished, room)),
                ..VfdevCardStep::of_order(order)
            },
            Step::Ends(breach) => VfdevCardStep {
                breach: number_of(breach),
                ..VfdevCardStep::of_kind(5)
            },
        }
    }

    // An order.
    fn of_order(order: Order) -> VfdevCardStep
        ensures { result ≡ order_as order }
    {
        match order {
            Order::Map(mapping) => VfdevCardStep {
                access: match mapping.access {
                    Access::ReadOnly => 1,
                    Access::WriteOnly => 2,
                    Access::ReadWrite => 3,
                },
                offset: mapping.offset,
                address: mapping.range.address,
                size: mapping.range.size,
                ..VfdevCardStep::of_kind(1)
            },
            Order::Unmap(range) => VfdevCardStep {
                address: range.address,
                size: range.size,
                ..VfdevCardStep::of_kind(2)
            },
            Order::Arm(vectors) => VfdevCardStep {
                first: vectors.first,
                count: vectors.count,
                ..VfdevCardStep::of_kind(3)
            },
            Order::Disarm(vectors) => VfdevCardStep {
                first: vectors.first,
                count: vectors.count,
                ..VfdevCardStep::of_kind(4)
            },
        }
    }
}

// How many bytes a reply has, or 0 for none.
fn reply_of(count: Option<usize>) -> u32
    requires { IfSome count (λ n. n ≤ 4128) }
    ensures { result ≡ count_or count }
{
    match count {
        Some(count) => count as u32,
        None => 0,
    }
}

// The number of a reason to end a connection.
fn number_of(breach: Breach) -> u32
    ensures { result ≡ breach_number breach }
{
    match breach {
        Breach::NoHeader(_) => 1,
        Breach::WrongSize => 2,
        Breach::NoVersion => 3,
        Breach::OtherVersion => 4,
        Breach::SecondVersion => 5,
        Breach::StrayFiles => 6,
    }
}
