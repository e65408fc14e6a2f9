//! The mode `keep`: what a pool's lone function is given.
ghost use Rattle.std.specs.Prelude.{◌≡◌, ◌++◌, true, IfErr, OnOk, OnErr};
ghost use Rattle.std.specs.Option.{option_map};
ghost use Rattle.lone.specs.Kept.{item_of};
ghost use Rattle.transcript.specs.Known.{Began, Sent};
ghost use Rattle.transcript.specs.Text.{item_line};
ghost use Rattle.transcript.specs.Lines.{if_any, kept_lines, keep_text};
ghost use Rattle.modes.specs.Faults.{is_late};
ghost use Rattle.modes.specs.Program.{device_of};

use crate::fault::Fault;
use crate::making::{drop_boxed, make_device, make_scratch, make_watch};
use guest_memory::GuestMem;
use lone::{Given, Handover, PoolView};
use script::{Scratch, Script};
use std::alloc::Global;
use std::io::Write;
use transcript::Output;
use wire_frame::PoolId;

/// Gives a script's events to the device that it asks for over these memories, and to the output the lines of what the events
/// leave for the pool's lone function, each with the number of its event.
#[inline(never)]
pub fn keep<M: GuestMem, W: Write>(
    alloc: Global,
    script: &Script,
    pool: PoolId,
    memories: Vec<M>,
    output: &mut Output,
    writer: &mut W,
) -> Result<(), Fault>
    ensures ok { OnOk result (Sent (W.contents writer.old) (W.contents writer.new)
        (output.old ++ keep_text pool (device_of script.now.device) script.now.events) output.new) }
    ensures err { OnErr result (Began (W.contents writer.old) (W.contents writer.new)
        (output.old ++ keep_text pool (device_of script.now.device) script.now.events)) }
    ensures late { IfErr result (λ e. is_late e ≡ true) }
{
    let device = make_device(alloc, script.shape(), memories)?;
    let mut watch = make_watch(alloc, device, pool)?;
    let told = perform(alloc, &mut watch, script, output, writer);
    drop_boxed(watch);
    told
}

// Makes where the requests are laid out, and gives the events to the watched device and what they leave to the output.
fn perform<M: GuestMem, W: Write>(
    alloc: Global,
    watch: &mut PoolView<M>,
    script: &Script,
    output: &mut Output,
    writer: &mut W,
) -> Result<(), Fault>
    ensures ok { OnOk result (Sent (W.contents writer.old) (W.contents writer.new)
        (output.old ++ keep_text watch.old.pool watch.old.world script.now.events) output.new) }
    ensures err { OnErr result (Began (W.contents writer.old) (W.contents writer.new)
        (output.old ++ keep_text watch.old.pool watch.old.world script.now.events)) }
    ensures late { IfErr result (λ e. is_late e ≡ true) }
{
    let mut scratch = make_scratch(alloc)?;
    let told = items(watch, script, &mut scratch, output, writer);
    drop_boxed(scratch);
    Ok(told?)
}

// Gives the events to the watched device, and the lines of what they leave to the output.
#[inline(never)]
fn items<M: GuestMem, W: Write>(
    watch: &mut PoolView<M>,
    script: &Script,
    scratch: &mut Scratch,
    output: &mut Output,
    writer: &mut W,
) -> Result<(), transcript::Fault>
    ensures ok { OnOk result (Sent (W.contents writer.old) (W.contents writer.new)
        (output.old ++ keep_text watch.old.pool watch.old.world script.now.events) output.new) }
    ensures err { OnErr result (Began (W.contents writer.old) (W.contents writer.new)
        (output.old ++ keep_text watch.old.pool watch.old.world script.now.events)) }
{
    let mut handover = Handover::new();
    for index in 0..script.len() {
        let request = script.request(index, scratch);
        let given = watch.step(request, &mut handover);
        item(output, index as u64 + 1, given, writer)?;
    }
    Ok(())
}

// The line of what an event leaves, if it leaves anything.
#[inline]
fn item<W: Write>(
    output: &mut Output,
    number: u64,
    given: Option<Given<'_>>,
    writer: &mut W,
) -> Result<(), transcript::Fault>
    ensures ok { OnOk result (Sent (W.contents writer.old) (W.contents writer.new)
        (output.old ++ if_any item_line number (option_map item_of given.entry)) output.new) }
    ensures err { OnErr result (Began (W.contents writer.old) (W.contents writer.new)
        (output.old ++ if_any item_line number (option_map item_of given.entry))) }
{
    match given {
        Some(given) => output.item(number, given, writer),
        None => Ok(()),
    }
}
