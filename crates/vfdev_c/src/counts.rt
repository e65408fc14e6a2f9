//! What a function has counted, as C sees it.
ghost use Rattle.std.specs.Prelude.{◌≡◌};
ghost use Rattle.vfdev_c.specs.CardCalls.{of_card};
ghost use Rattle.vfdev_c.specs.Counted.{count_reply, counted_at, counts_shown, fault_number, misuse_number, none_counted, of_device, queue_of_fault, unclaimed_in};
ghost use Rattle.vfdev_c.specs.Handle.{no_device};

use crate::card_held::CardHeld;
use crate::device_kind::DeviceKind;
use crate::handle::Vfdev;
use crate::on_card::on_card;
use crate::on_held::on_held;
use crate::reply::VfdevReply;
use device::Device;
use live_memory::Dma;
use local_switch::Source;
use std::alloc::Global;
use tx_desc::Misuse;
use vf_unit::{Counts, Queue, QueueFault};
use wire_frame::{Fault, PoolId};

/// What a function has counted, as C sees it. Each number but the last two is modulo 2^32.
#[repr(C)]
#[derive(Clone, Copy, Debug, PartialEq, Eq)]
pub struct VfdevCounts {
    /// How many frames were placed in its receive queue.
    pub received: u32,
    /// How many of its frames were sent.
    pub sent: u32,
    /// How many frames came and found no room.
    pub no_room: u32,
    /// How many of its frames the sender's check refused.
    pub refused: u32,
    /// How many of its frames nobody got, since the device was made.
    pub unclaimed: u32,
    /// How often a fault stopped a queue.
    pub faults: u32,
    /// How often something that its driver left to the card could not be done.
    pub shortfalls: u32,
    /// Why a queue was stopped the last time: 0 none was, 1 a receive buffer; of a transmit queue 2 a type that none has, 3 something that
    /// the card doesn't do, 4 a buffer.
    pub last_fault: u32,
    /// The transmit queue that was stopped then, and else 0.
    pub last_queue: u32,
}

/// What a function has counted.
#[unsafe(no_mangle)]
pub extern "C" fn vfdev_counts(
    alloc: Global,
    handle: &mut Vfdev,
    function: u8,
    counts: &mut VfdevCounts,
) -> VfdevReply
    ensures handle { handle.new.owner.held ≡ handle.old.owner.held }
    ensures replied { result ≡ of_device handle.old.owner.held no_device (count_reply function) }
    ensures counts { counts.new ≡ of_device handle.old.owner.held none_counted (counted_at function) }
{
    on_held!(
        handle,
        alloc,
        counts.clear(VfdevReply::no_device()),
        Made device => device.counts(function, counts),
        Kept device => device.counts(function, counts),
        Lent device => device.counts(function, counts),
        Guests device => device.counts(function, counts);
        Lending | Card
    )
}

/// How many frames from the wire nobody got.
#[unsafe(no_mangle)]
pub extern "C" fn vfdev_unclaimed(alloc: Global, handle: &mut Vfdev) -> u32
    ensures handle { handle.new.owner.held ≡ handle.old.owner.held }
    ensures count { result ≡ of_device handle.old.owner.held 0 unclaimed_in }
{
    on_held!(
        handle,
        alloc,
        0,
        Made device => device.unclaimed(),
        Kept device => device.unclaimed(),
        Lent device => device.unclaimed(),
        Guests device => device.unclaimed();
        Lending | Card
    )
}

/// What a function of a card has counted.
#[unsafe(no_mangle)]
pub extern "C" fn vfdev_card_counts(
    alloc: Global,
    handle: &mut Vfdev,
    function: u8,
    counts: &mut VfdevCounts,
) -> VfdevReply
    ensures handle { handle.new.owner.held ≡ handle.old.owner.held }
    ensures replied { result ≡ of_card handle.old.owner.held no_device (λ c. count_reply function c.card.hosted.device.world) }
    ensures counts { counts.new ≡ of_card handle.old.owner.held none_counted (λ c. counted_at function c.card.hosted.device.world) }
{
    on_card!(handle, alloc, counts.clear(VfdevReply::no_device()), held => held.counts(function, counts))
}

/// How many frames from the wire nobody got, of a card.
#[unsafe(no_mangle)]
pub extern "C" fn vfdev_card_unclaimed(alloc: Global, handle: &mut Vfdev) -> u32
    ensures handle { handle.new.owner.held ≡ handle.old.owner.held }
    ensures count { result ≡ of_card handle.old.owner.held 0 (λ c. unclaimed_in c.card.hosted.device.world) }
{
    on_card!(handle, alloc, 0, held => held.card.unclaimed(Source::Wire))
}

impl VfdevCounts {
    /// Nothing was counted.
    pub fn none() -> VfdevCounts
        ensures { result ≡ none_counted }
    {
        VfdevCounts {
            received: 0,
            sent: 0,
            no_room: 0,
            refused: 0,
            unclaimed: 0,
            faults: 0,
            shortfalls: 0,
            last_fault: 0,
            last_queue: 0,
        }
    }

    // What was counted, with how many of the function's frames nobody got.
    fn of(counts: Counts, unclaimed: u32) -> VfdevCounts
        ensures { result ≡ counts_shown counts unclaimed }
    {
        VfdevCounts {
            received: counts.received,
            sent: counts.sent,
            no_room: counts.no_room,
            refused: counts.refused,
            unclaimed,
            faults: counts.faults,
            shortfalls: counts.shortfalls,
            last_fault: number_of(counts.last_fault),
            last_queue: queue_of(counts.last_fault),
        }
    }

    // Nothing was counted, and that is the reply.
    fn clear(&mut self, reply: VfdevReply) -> VfdevReply
        ensures counts { self.new ≡ none_counted }
        ensures reply { result ≡ reply }
    {
        *self = VfdevCounts::none();
        reply
    }
}

// Why a queue was stopped.
fn number_of(fault: Option<QueueFault>) -> u32
    ensures { result ≡ fault_number fault }
{
    match fault {
        None => 0,
        Some(QueueFault::Receive) => 1,
        Some(QueueFault::Transmit(_, why)) => misuse_number(why),
    }
}

// Why a descriptor of a transmit queue can't be used.
fn misuse_number(why: Misuse) -> u32
    ensures { result ≡ misuse_number why }
{
    match why {
        Misuse::UnknownType => 2,
        Misuse::NotOffered => 3,
        Misuse::PastMemory => 4,
    }
}

// The transmit queue that was stopped.
fn queue_of(fault: Option<QueueFault>) -> u32
    ensures { result ≡ queue_of_fault fault }
{
    match fault {
        Some(QueueFault::Transmit(Queue::Q1, _)) => 1,
        _ => 0,
    }
}

// What a function of a device has counted.
pub(crate) fn count<D: Dma<K>, K>(
    device: &Device<D, K>,
    function: u8,
    counts: &mut VfdevCounts,
) -> VfdevReply
    ensures replied { result ≡ count_reply function device.now.world }
    ensures counts { counts.new ≡ counted_at function device.now.world }
{
    let index = usize::from(function);
    if index >= device.functions() {
        return counts.clear(VfdevReply::refused(Fault::NoSuchVf));
    }
    let Some(pool) = PoolId::new(function) else {
        unreachable!()
    };
    *counts = VfdevCounts::of(device.counts(index), device.unclaimed(Source::Pool(pool)));
    VfdevReply::done()
}

impl CardHeld {
    // What a function has counted.
    fn counts(&self, function: u8, counts: &mut VfdevCounts) -> VfdevReply
        ensures replied { result ≡ count_reply function self.now.card.hosted.device.world }
        ensures counts { counts.new ≡ counted_at function self.now.card.hosted.device.world }
    {
        if usize::from(function) >= self.card.functions() {
            return counts.clear(VfdevReply::refused(Fault::NoSuchVf));
        }
        let Some(pool) = PoolId::new(function) else {
            unreachable!()
        };
        let unclaimed = self.card.unclaimed(Source::Pool(pool));
        *counts = VfdevCounts::of(self.card.counts(pool), unclaimed);
        VfdevReply::done()
    }
}
