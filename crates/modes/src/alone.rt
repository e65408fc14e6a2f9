//! The mode `lone`: what is seen of a pool's function by itself, which is given no more than `keep` tells.
ghost use Rattle.std.specs.Prelude.{◌≡◌, ◌++◌, true, length, IfErr, OnOk, OnErr};
ghost use Rattle.std.specs.Option.{option_map};
ghost use Rattle.device.specs.Lone.{alone};
ghost use Rattle.lone.specs.Kept.{observation_of};
ghost use Rattle.transcript.specs.Known.{Began, Sent};
ghost use Rattle.transcript.specs.Text.{seen_line};
ghost use Rattle.transcript.specs.Lines.{if_any, lone_text};
ghost use Rattle.modes.specs.Faults.{is_late};
ghost use Rattle.modes.specs.Program.{alone_of, device_of};

use crate::fault::Fault;
use crate::making::{Workspace, drop_boxed, is_of_size, make_device, make_lone, make_watch};
use device::Room;
use guest_memory::GuestMem;
use lone::follow::follow;
use lone::{Handover, Lone, PoolView, Seen};
use script::Script;
use std::alloc::Global;
use std::io::Write;
use transcript::Output;
use wire_frame::PoolId;

/// The memories of a device's functions, and that of one function by itself.
#[derive(Drop)]
pub struct Memories<M: GuestMem> {
    /// Those of the device's functions.
    pub device: Vec<M>,
    /// That of the function by itself.
    pub alone: M,
}

/// Gives a script's events to the device that it asks for over these memories, and what they leave for the pool to its lone
/// function over its own; to the output the lines of what is seen of that, each with the number of its event.
#[inline(never)]
#[tactic(auto, using(transcript::proofs::Known::nothing_began))]
pub fn lone_function<M: GuestMem, W: Write>(
    alloc: Global,
    script: &Script,
    pool: PoolId,
    memories: Memories<M>,
    output: &mut Output,
    writer: &mut W,
) -> Result<(), Fault>
    ensures ok { OnOk result (Sent (W.contents writer.old) (W.contents writer.new)
        (output.old ++ lone_text pool (alone_of script.now.device) (device_of script.now.device) script.now.events) output.new) }
    ensures err { OnErr result (Began (W.contents writer.old) (W.contents writer.new)
        (output.old ++ lone_text pool (alone_of script.now.device) (device_of script.now.device) script.now.events)) }
    ensures late { IfErr result (λ e. is_late e ≡ true) }
{
    let shape = script.shape();
    let memory = memories.alone;
    if !is_of_size(&memory, shape.memory_size) {
        return Err(Fault::from(wire_frame::Fault::BadMake));
    }
    let device = make_device(alloc, shape, memories.device)?;
    let mut watch = make_watch(alloc, device, pool)?;
    let told = perform(alloc, memory, &mut watch, script, output, writer);
    drop_boxed(watch);
    told
}

// Makes the lone function, and has it given what the events leave to it of the watched device.
#[tactic(auto, using(transcript::proofs::Known::nothing_began))]
fn perform<M: GuestMem, W: Write>(
    alloc: Global,
    memory: M,
    watch: &mut PoolView<M>,
    script: &Script,
    output: &mut Output,
    writer: &mut W,
) -> Result<(), Fault>
    ensures ok { OnOk result (Sent (W.contents writer.old) (W.contents writer.new)
        (output.old ++ lone_text watch.old.pool
        (alone script.now.device.limit (length (M.bytes memory))) watch.old.world script.now.events) output.new) }
    ensures err { OnErr result (Began (W.contents writer.old) (W.contents writer.new)
        (output.old ++ lone_text watch.old.pool
        (alone script.now.device.limit (length (M.bytes memory))) watch.old.world script.now.events)) }
    ensures late { IfErr result (λ e. is_late e ≡ true) }
{
    let mut lone = make_lone(alloc, memory, script.shape().limit)?;
    let told = observe(alloc, watch, &mut lone, script, output, writer);
    drop_boxed(lone);
    told
}

// Makes what is lent for the events, and gives them to the watched device and what is seen of the lone function to the output.
fn observe<M: GuestMem, W: Write>(
    alloc: Global,
    watch: &mut PoolView<M>,
    lone: &mut Lone<M>,
    script: &Script,
    output: &mut Output,
    writer: &mut W,
) -> Result<(), Fault>
    ensures ok { OnOk result (Sent (W.contents writer.old) (W.contents writer.new)
        (output.old ++ lone_text watch.old.pool lone.old watch.old.world script.now.events) output.new) }
    ensures err { OnErr result (Began (W.contents writer.old) (W.contents writer.new)
        (output.old ++ lone_text watch.old.pool lone.old watch.old.world script.now.events)) }
    ensures late { IfErr result (λ e. is_late e ≡ true) }
{
    let mut lent = Workspace::new(alloc)?;
    let told = observations(watch, lone, script, &mut lent, output, writer);
    lent.end();
    Ok(told?)
}

// Gives the events to the watched device and what they leave to the lone function, and the lines of what is seen of that
// to the output.
#[inline(never)]
fn observations<M: GuestMem, W: Write>(
    watch: &mut PoolView<M>,
    lone: &mut Lone<M>,
    script: &Script,
    lent: &mut Workspace,
    output: &mut Output,
    writer: &mut W,
) -> Result<(), transcript::Fault>
    ensures ok { OnOk result (Sent (W.contents writer.old) (W.contents writer.new)
        (output.old ++ lone_text watch.old.pool lone.old watch.old.world script.now.events) output.new) }
    ensures err { OnErr result (Began (W.contents writer.old) (W.contents writer.new)
        (output.old ++ lone_text watch.old.pool lone.old watch.old.world script.now.events)) }
{
    let mut handover = Handover::new();
    let (scratch, room) = (&mut *lent.scratch, &mut *lent.room);
    for index in 0..script.len() {
        let request = script.request(index, scratch);
        let seen = follow(watch, lone, request, &mut handover, room);
        let pool = watch.pool();
        observation(output, index as u64 + 1, pool, seen, room, writer)?;
    }
    Ok(())
}

// The line of what is seen, if anything is.
#[inline]
fn observation<W: Write>(
    output: &mut Output,
    number: u64,
    pool: PoolId,
    seen: Option<Seen>,
    room: &Room,
    writer: &mut W,
) -> Result<(), transcript::Fault>
    ensures ok { OnOk result (Sent (W.contents writer.old) (W.contents writer.new)
        (output.old ++ if_any (seen_line pool) number (option_map (observation_of room.now) seen)) output.new) }
    ensures err { OnErr result (Began (W.contents writer.old) (W.contents writer.new)
        (output.old ++ if_any (seen_line pool) number (option_map (observation_of room.now) seen))) }
{
    match seen {
        Some(seen) => output.seen(number, pool, seen, room, writer),
        None => Ok(()),
    }
}
