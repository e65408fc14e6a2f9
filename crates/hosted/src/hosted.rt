//! The device with its host.
ghost use Rattle.std.specs.Prelude.{◌≡◌, ◌≤◌, ◌&&◌, false, true, nat_le, length, map, replicate, slice_index, Err, IfErr, IfOk};
ghost use Rattle.device.specs.Guests.{is_for_guests};
ghost use Rattle.vf_unit.specs.Unit.{counts_of, interval_of};
ghost use Rattle.device.specs.World.{function_of, place_of, world_after};
ghost use Rattle.mailbox.specs.Mailbox.{blank};
ghost use Rattle.mailbox.specs.Start.{first_writes};
ghost use Rattle.mailbox_laws.specs.Turns.{write_events};
ghost use Rattle.hosted.specs.Hosted.{IsBegun, IsHosted, host_of_ids};

use device::{Device, Vector};
use live_memory::Dma;
use local_switch::Source;
use mailbox::{Host, Mailbox};
use offload::Offloads;
use std::alloc::{AllocError, Global};
use std::marker::Model;
use vf_unit::Counts;
use wire_frame::{Fault, FrameLimit, PoolId, Vid};

/// How many functions a host has mailboxes for.
const MAILBOXES: usize = 64;

/// A device, the host that alone writes the physical function's registers, and the mailbox of each function. Contracts see all three,
/// the device with what was read and written of each memory.
#[derive(Drop)]
pub struct HostedDevice<D: Dma<K>, K> {
    pub(crate) device: Device<D, K>,
    pub(crate) host: Host,
    // by the pools
    pub(crate) mailboxes: Vec<Mailbox>,
}

impl<D: Dma<K>, K> Model for HostedDevice<D, K> {
    ghost use Rattle.hosted.specs.Hosted.{HostedState, IsHosted};

    ghost Value = { HostedState };

    ghost view = { λ h. record { device = h.device; host = h.host; mailboxes = h.mailboxes.items } };

    ghost invariant = { λ h. IsHosted (record { device = h.device; host = h.host; mailboxes = h.mailboxes.items }) };
}

impl<D: Dma<K>, K> HostedDevice<D, K> {
    /// A device of closed functions, each over one of the memories, 1 to 64, where one of no bytes is vacant, and a host whose policies
    /// may name these VLAN ids, at most 64. Every register of the physical function has the word that it has for this host: no function
    /// may receive or send, until a policy admits it and its driver asks. The pool, if one is given, takes what no pool accepts. No byte of a
    /// memory is read or written. The device has these offloads for the driver of each guest that comes.
    ///
    /// [`Fault::BadMake`] comes exactly where there are more than 64 ids, no memories or more than 64, or one has more than 2^46 bytes;
    /// [`Fault::NoMemory`] only where the host refused the room.
    pub fn for_guests(
        alloc: Global,
        memories: Vec<D>,
        ids: &[Vid],
        default_pool: Option<PoolId>,
        limit: FrameLimit,
        offloads: Offloads,
    ) -> Result<HostedDevice<D, K>, Fault>
        ensures begun { IfOk result (IsBegun (host_of_ids ids.now default_pool limit) offloads
            (map (λ m. length (D.seen m)) memories.items)) }
        ensures untouched { IfOk result (λ h. h.device.accesses ≡ map (λ m. D.noted m) memories.items) }
        ensures bad_make { (nat_le (length ids.now) 64 && is_for_guests
            (map (λ m. length (D.seen m)) memories.items)) ≡ false → result ≡ Err Fault.BadMake }
        ensures no_memory { IfErr result (λ e.
            (nat_le (length ids.now) 64
            && is_for_guests (map (λ m. length (D.seen m)) memories.items)) ≡ true
            → e ≡ Fault.NoMemory) }
    {
        let Some(host) = Host::new(ids, default_pool, limit) else {
            return Err(Fault::BadMake);
        };
        let mut device = Device::for_guests(alloc, memories, limit.get(), offloads)?;
        let mailboxes = blank_mailboxes(alloc)?;
        bring_up(&mut device, &host);
        Ok(HostedDevice {
            device,
            host,
            mailboxes,
        })
    }

    /// How many functions there are, at most 64. Its contract says besides what stands between any two calls: the device's settings are
    /// those of the host, and no function has more than its policy grants.
    pub fn functions(&self) -> usize
        ensures count { result ≡ length self.now.device.world.functions }
        ensures few { result ≤ 64 }
        ensures stands { IsHosted self.now }
    {
        self.device.functions()
    }

    /// What a function has counted since it was opened, its guest came or it was reset, as [`Device::counts`](device::Device::counts) says.
    /// Nothing where there is no such function, or it is closed.
    pub fn counts(&self, pool: PoolId) -> Counts
        ensures { result ≡ counts_of (function_of pool self.now.device.world) }
    {
        let index = usize::from(pool.get());
        if index < self.device.functions() {
            self.device.counts(index)
        } else {
            Counts::none()
        }
    }

    /// How many frames from a source nobody got since the device was made, as [`Device::unclaimed`](device::Device::unclaimed) says.
    pub fn unclaimed(&self, from: Source) -> u32
        ensures { result ≡ slice_index self.now.device.world.unclaimed (place_of from) }
    {
        self.device.unclaimed(from)
    }

    /// How many microseconds apart a function's driver wants the messages of a vector to be at least, 0 to 1022, as
    /// [`Device::interval`](device::Device::interval) says. 0 where it says nothing of it, where there is no such function, or it is closed.
    pub fn interval(&self, pool: PoolId, vector: Vector) -> u16
        ensures { result ≡ interval_of (function_of pool self.now.device.world) vector }
    {
        let index = usize::from(pool.get());
        if index < self.device.functions() {
            self.device.interval(index, vector)
        } else {
            0
        }
    }
}

// The mailboxes of all functions, in which nothing stands.
fn blank_mailboxes(alloc: Global) -> Result<Vec<Mailbox>, AllocError>
    ensures { IfOk result (λ boxes. boxes.items ≡ replicate 64 blank) }
{
    let mut boxes = Vec::with_capacity(alloc, MAILBOXES)?;
    for _ in 0..MAILBOXES {
        boxes.push(Mailbox::new())?;
    }
    Ok(boxes)
}

// Does the first writes of a host.
fn bring_up<D: Dma<K>, K>(device: &mut Device<D, K>, host: &Host)
    ensures world { device.new.world
        ≡ world_after device.old.world (write_events (first_writes host.now)) }
    ensures accesses { device.new.accesses ≡ device.old.accesses }
{
    for place in 0..Host::FIRST_WRITES {
        let Some(write) = host.first_write(place) else {
            unreachable!()
        };
        let _ = device.pf_write(write.offset, write.value);
    }
}
