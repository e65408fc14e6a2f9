//! The mode `run`: every answer, and then the frames that are kept of those that left for the wire.
ghost use Rattle.std.specs.Prelude.{◌≡◌, ◌<◌, ◌++◌, true, [], length, slice_index_or, IfOk, IfErr, OnOk, OnErr};
ghost use Rattle.device.specs.World.{answers, world_after};
ghost use Rattle.transcript.specs.Known.{Began, Sent};
ghost use Rattle.transcript.specs.Lines.{frame_lines, lines, run_text};
ghost use Rattle.modes.specs.Faults.{is_late};
ghost use Rattle.modes.specs.Isolation.{AreLeftAsAlone, SentIsolated};
ghost use Rattle.modes.specs.Program.{device_of};

use crate::fault::Fault;
use crate::making::{drop_boxed, make_device, make_scratch};
use device::{Device, Room};
use guest_memory::GuestMem;
use script::{Scratch, Script};
use std::alloc::Global;
use std::io::Write;
use transcript::Output;
use wire_frame::FrameBuf;

/// Gives a script's events to the device that it asks for over these memories, and to the output the lines of the answers,
/// numbered from 1, and those of the frames that are kept of the ones that left for the wire; hands back the device as the
/// events left it.
///
/// To each virtual function the run is as if the function were alone: what it sees of the answers that were written, and what is
/// left of it, are those of a lone function that is given no more than is kept for it of the events.
#[inline(never)]
pub fn run<M: GuestMem, W: Write>(
    alloc: Global,
    script: &Script,
    memories: Vec<M>,
    output: &mut Output,
    writer: &mut W,
) -> Result<Box<Device<M>>, Fault>
    ensures ok { OnOk result (Sent (W.contents writer.old) (W.contents writer.new)
        (output.old ++ run_text (device_of script.now.device) script.now.events) output.new) }
    ensures err { OnErr result (Began (W.contents writer.old) (W.contents writer.new)
        (output.old ++ run_text (device_of script.now.device) script.now.events)) }
    ensures late { IfErr result (λ e. is_late e ≡ true) }
    ensures world { IfOk result (λ device. device.value.world
        ≡ world_after (device_of script.now.device) script.now.events) }
    // what was written is the lines of answers that are to each function as if it were alone, and then of the device's frames
    ensures isolated { IfOk result (λ device. SentIsolated script.now device.value.world.wire
        (W.contents writer.old) (W.contents writer.new) output.old output.new) }
    // and each function and its own settings are what the function alone becomes
    ensures isolated_state { IfOk result (λ device. AreLeftAsAlone script.now device.value.world) }
{
    let shape = script.shape();
    let mut device = make_device(alloc, shape, memories)?;
    let told = perform(alloc, &mut device, script, output, writer);
    match told {
        Ok(()) => Ok(device),
        Err(fault) => {
            drop_boxed(device);
            Err(fault)
        }
    }
}

// Gives the lines of the answers to the output, and then those of the frames that went to the wire.
fn perform<M: GuestMem, W: Write>(
    alloc: Global,
    device: &mut Device<M>,
    script: &Script,
    output: &mut Output,
    writer: &mut W,
) -> Result<(), Fault>
    ensures ok { OnOk result (Sent (W.contents writer.old) (W.contents writer.new)
        (output.old ++ run_text device.old.world script.now.events) output.new) }
    ensures err { OnErr result (Began (W.contents writer.old) (W.contents writer.new)
        (output.old ++ run_text device.old.world script.now.events)) }
    ensures world { OnOk result
        (device.new.world ≡ world_after device.old.world script.now.events) }
    ensures late { IfErr result (λ e. is_late e ≡ true) }
{
    let mut scratch = make_scratch(alloc)?;
    let told = answers(device, script, &mut scratch, output, writer);
    drop_boxed(scratch);
    told?;
    Ok(frames(device, output, writer)?)
}

// Gives the events to the device, and the lines of its answers to the output.
#[inline(never)]
fn answers<M: GuestMem, W: Write>(
    device: &mut Device<M>,
    script: &Script,
    scratch: &mut Scratch,
    output: &mut Output,
    writer: &mut W,
) -> Result<(), transcript::Fault>
    ensures ok { OnOk result (Sent (W.contents writer.old) (W.contents writer.new)
        (output.old ++ lines 1 (answers device.old.world script.now.events)) output.new) }
    ensures world { OnOk result
        (device.new.world ≡ world_after device.old.world script.now.events) }
    ensures err { OnErr result (Began (W.contents writer.old) (W.contents writer.new)
        (output.old ++ lines 1 (answers device.old.world script.now.events))) }
{
    let mut room = Room::new();
    for index in 0..script.len() {
        let request = script.request(index, scratch);
        let response = device.take(request, &mut room);
        output.answer(index as u64 + 1, &response, &room, writer)?;
    }
    Ok(())
}

// Gives the lines of the frames that went to the wire to the output.
#[inline(never)]
fn frames<M: GuestMem, W: Write>(
    device: &Device<M>,
    output: &mut Output,
    writer: &mut W,
) -> Result<(), transcript::Fault>
    ensures ok { OnOk result (Sent (W.contents writer.old) (W.contents writer.new)
        (output.old ++ frame_lines device.now.world.wire) output.new) }
    ensures err { OnErr result (Began (W.contents writer.old) (W.contents writer.new)
        (output.old ++ frame_lines device.now.world.wire)) }
{
    let mut room = FrameBuf::blank();
    for index in 0..device.wire_len() {
        let frame = frame_at(device, index, &mut room);
        output.frame(frame.bytes(), writer)?;
    }
    Ok(())
}

// A frame that went to the wire, laid into `room`.
#[inline]
fn frame_at<'f, M: GuestMem>(
    device: &Device<M>,
    index: usize,
    room: &'f mut FrameBuf,
) -> &'f FrameBuf
    requires { index < length device.now.world.wire }
    ensures { result.now ≡ slice_index_or device.now.world.wire index [] }
{
    match device.wire_at(index, room) {
        Some(frame) => frame,
        None => unreachable!(),
    }
}
