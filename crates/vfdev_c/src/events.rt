//! The events, but for a service: each call gives one to the device.
ghost use Rattle.std.specs.Prelude.{◌≡◌, length, Ok};
ghost use Rattle.device.specs.declared.event.Event.{Event};
ghost use Rattle.vfdev_c.specs.Handle.{Calls, raised_on, messages_in, bytes_on, where_room, wire_asked, write_asked};

use crate::handle::Vfdev;
use crate::reply::VfdevReply;
use crate::wanted::Wanted;
use device::{MemSlice, Request};
use irq_causes::Messages;
use std::alloc::Global;
use wire_frame::{Fault, Frame, FrameLimit};

/// How many pools there are, each of which has a byte of the messages.
pub const POOLS: usize = 64;

/// Opens a virtual function: its registers become initial, and its memory zero, whatever it was.
#[unsafe(no_mangle)]
pub extern "C" fn vfdev_open(alloc: Global, handle: &mut Vfdev, function: u8) -> VfdevReply
    ensures { Calls handle.old.owner.held (Ok (Event.Open function)) handle.new.owner.held result }
{
    handle.ask(alloc, Request::Open(function)).reply
}

/// Closes a virtual function.
#[unsafe(no_mangle)]
pub extern "C" fn vfdev_end(alloc: Global, handle: &mut Vfdev, function: u8) -> VfdevReply
    ensures { Calls handle.old.owner.held (Ok (Event.End function)) handle.new.owner.held result }
{
    handle.ask(alloc, Request::End(function)).reply
}

/// Resets a virtual function (SR-IOV 1.1, function-level reset).
#[unsafe(no_mangle)]
pub extern "C" fn vfdev_flr(alloc: Global, handle: &mut Vfdev, function: u8) -> VfdevReply
    ensures { Calls handle.old.owner.held (Ok (Event.Flr function)) handle.new.owner.held result }
{
    handle.ask(alloc, Request::Flr(function)).reply
}

/// Reads the register of a virtual function at an offset in bytes.
#[unsafe(no_mangle)]
pub extern "C" fn vfdev_vf_read(
    alloc: Global,
    handle: &mut Vfdev,
    function: u8,
    offset: u32,
) -> VfdevReply
    ensures { Calls handle.old.owner.held (Ok (Event.VfRead function offset)) handle.new.owner.held result }
{
    handle.ask(alloc, Request::VfRead(function, offset)).reply
}

/// Writes the register of a virtual function at an offset in bytes. The messages that this issues stand in the first 64
/// bytes of `messages`.
#[unsafe(no_mangle)]
pub extern "C" fn vfdev_vf_write(
    alloc: Global,
    handle: &mut Vfdev,
    function: u8,
    offset: u32,
    value: u32,
    messages: &mut [u8],
) -> VfdevReply
    ensures called { Calls handle.old.owner.held (where_room messages.old (Ok (Event.VfWrite function offset value))) handle.new.owner.held result }
    ensures messages { messages.new
        ≡ messages_in (raised_on handle.old.owner.held (where_room messages.old (Ok (Event.VfWrite function offset value))) handle.new.owner.held) messages.old }
{
    if messages.len() < POOLS {
        return VfdevReply::no_room();
    }
    let handed = handle.ask(alloc, Request::VfWrite(function, offset, value));
    put_messages(handed.messages, messages);
    handed.reply
}

/// Fills `out` with the bytes of a guest's memory from an address on, at most 2048. Where it is refused, `out` stays.
#[unsafe(no_mangle)]
pub extern "C" fn vfdev_mem_read(
    alloc: Global,
    handle: &mut Vfdev,
    function: u8,
    at: u64,
    out: &mut [u8],
) -> VfdevReply
    ensures called { Calls handle.old.owner.held (Ok (Event.MemRead function at (length out.old))) handle.new.owner.held result }
    ensures bytes { out.new ≡ bytes_on handle.old.owner.held (Event.MemRead function at (length out.old)) handle.new.owner.held out.old }
{
    handle
        .give(alloc, Wanted::Read(function, at, out.len()), out)
        .reply
}

/// Writes bytes of a guest's memory from an address on. More than 2048 are refused as too long before the device is asked.
#[unsafe(no_mangle)]
pub extern "C" fn vfdev_mem_write(
    alloc: Global,
    handle: &mut Vfdev,
    function: u8,
    at: u64,
    bytes: &[u8],
) -> VfdevReply
    ensures { Calls handle.old.owner.held (write_asked function at bytes.now) handle.new.owner.held result }
{
    match MemSlice::new(bytes) {
        Ok(written) => {
            handle
                .ask(alloc, Request::MemWrite(function, at, written))
                .reply
        }
        Err(fault) => VfdevReply::refused(fault),
    }
}

/// Reads the register of the physical function at an offset in bytes.
#[unsafe(no_mangle)]
pub extern "C" fn vfdev_pf_read(alloc: Global, handle: &mut Vfdev, offset: u32) -> VfdevReply
    ensures { Calls handle.old.owner.held (Ok (Event.PfRead offset)) handle.new.owner.held result }
{
    handle.ask(alloc, Request::PfRead(offset)).reply
}

/// Writes the register of the physical function at an offset in bytes.
#[unsafe(no_mangle)]
pub extern "C" fn vfdev_pf_write(
    alloc: Global,
    handle: &mut Vfdev,
    offset: u32,
    value: u32,
) -> VfdevReply
    ensures { Calls handle.old.owner.held (Ok (Event.PfWrite offset value)) handle.new.owner.held result }
{
    handle.ask(alloc, Request::PfWrite(offset, value)).reply
}

/// Resets the device: every virtual function is closed and every setting initial.
#[unsafe(no_mangle)]
pub extern "C" fn vfdev_pf_reset(alloc: Global, handle: &mut Vfdev) -> VfdevReply
    ensures { Calls handle.old.owner.held (Ok Event.PfReset) handle.new.owner.held result }
{
    handle.ask(alloc, Request::PfReset).reply
}

/// A frame comes from the wire. The messages that this issues stand in the first 64 bytes of `messages`. Bytes that are no
/// frame are refused as such before the device is asked.
#[unsafe(no_mangle)]
pub extern "C" fn vfdev_wire(
    alloc: Global,
    handle: &mut Vfdev,
    bytes: &[u8],
    messages: &mut [u8],
) -> VfdevReply
    ensures called { Calls handle.old.owner.held (where_room messages.old (wire_asked bytes.now)) handle.new.owner.held result }
    ensures messages { messages.new
        ≡ messages_in (raised_on handle.old.owner.held (where_room messages.old (wire_asked bytes.now)) handle.new.owner.held) messages.old }
{
    if messages.len() < POOLS {
        return VfdevReply::no_room();
    }
    let Ok(frame) = Frame::new(bytes, FrameLimit::longest()) else {
        put_messages(Messages::none(), messages);
        return VfdevReply::refused(Fault::BadFrame);
    };
    let handed = handle.ask(alloc, Request::Wire(frame));
    put_messages(handed.messages, messages);
    handed.reply
}

// Lays the messages into the first 64 bytes, where there is room.
#[inline]
pub(crate) fn put_messages(raised: Messages, messages: &mut [u8])
    ensures { messages.new ≡ messages_in raised messages.old }
{
    if messages.len() >= POOLS {
        raised.masks_are_small();
        messages[..POOLS].copy_from_slice(&raised.to_masks());
    }
}
