//! The program between a reader and a writer.
ghost use Rattle.std.specs.Prelude.{◌≡◌, ◌⊎◌, ◌++◌, ℕ, true, false, Err, IfOk, IfErr, OnOk, OnErr, IfSome, MatchResult};
ghost use Rattle.std.specs.Io.KnownBytes.{Appends};
ghost use Rattle.script.specs.declared.fault.Fault.{Fault as Unread};
ghost use Rattle.script.specs.Reading.{script_of};
ghost use Rattle.transcript.specs.Known.{Began, Sent};
ghost use Rattle.transcript.specs.Lines.{run_text};
ghost use Rattle.modes.specs.Faults.{is_late};
ghost use Rattle.modes.specs.Isolation.{BeganIsolated, WroteIsolated};
ghost use Rattle.modes.specs.Program.{device_of, text_of, BeganToWrite, Says, StopsAt, Tells, Wrote};

use crate::alone::{Memories, lone_function};
use crate::fault::Fault;
use crate::keep::keep;
use crate::making::drop_boxed;
use crate::mode::{Mode, Task};
use crate::run::run;
use guest_memory::{FlatMem, GuestMem};
use script::Script;
use std::alloc::Global;
use std::io::{Read, Write};
use transcript::Output;

/// Reads a script, gives its events to a device, and writes the output of the mode.
///
/// [`Fault::BadScript`] comes before anything is written, and then [`Fault::NoSuchVf`] where the mode names a pool that isn't
/// below the script's number of virtual functions. [`Fault::Io`] comes where the reader or the writer fails, and then the
/// writer has the beginning of the output.
pub fn drive<R: Read, W: Write>(
    alloc: Global,
    mode: Mode,
    reader: &mut R,
    writer: &mut W,
) -> Result<(), Fault>
    // where the bytes of the reader are known, their text says a script, and the writer got the mode's text of it
    ensures ok { OnOk result
        (Wrote mode (R.remaining reader.old) (W.contents writer.old) (W.contents writer.new)) }
    // or a beginning of that, or nothing
    ensures err { OnErr result ((writer.new ≡ writer.old)
        ⊎ BeganToWrite mode (R.remaining reader.old) (W.contents writer.old) (W.contents writer.new)) }
    // to each function of the script's device the lines of `run` are as if the function were alone; `keep` wrote what it is given
    // alone, and `lone` those lines of `run` that are its own
    ensures isolated { OnOk result
        (WroteIsolated mode (R.remaining reader.old) (W.contents writer.old) (W.contents writer.new)) }
    ensures isolated_so_far { OnErr result ((writer.new ≡ writer.old)
        ⊎ BeganIsolated mode (R.remaining reader.old) (W.contents writer.old) (W.contents writer.new)) }
    ensures early { IfErr result (λ e. is_late e ≡ false → writer.new ≡ writer.old) }
    ensures why { IfErr result (Tells mode (R.remaining reader.old)) }
    // of a text with a bad line nothing is written, and that line is told where reading comes so far
    ensures bad { IfSome (R.remaining reader.old) (λ text. (n : ℕ) → script_of text ≡ Err n
        → (writer.new ≡ writer.old) × MatchResult result (λ _. ⊥) (StopsAt n)) }
{
    read_and_play(alloc, mode, reader, writer)?
}

// The same in two steps. Outside, why the first event was not reached: a fault of reading, or no such pool; then the writer
// is as it was. Inside, what came of the events.
fn read_and_play<R: Read, W: Write>(
    alloc: Global,
    mode: Mode,
    reader: &mut R,
    writer: &mut W,
) -> Result<Result<(), Fault>, Fault>
    ensures unread { OnErr result (writer.new ≡ writer.old) }
    ensures why { IfErr result (Tells mode (R.remaining reader.old)) }
    ensures ok { IfOk result (λ played. OnOk played
        (Wrote mode (R.remaining reader.old) (W.contents writer.old) (W.contents writer.new))) }
    ensures err { IfOk result (λ played. OnErr played
        (BeganToWrite mode (R.remaining reader.old) (W.contents writer.old) (W.contents writer.new))) }
    ensures isolated { IfOk result (λ played. OnOk played
        (WroteIsolated mode (R.remaining reader.old) (W.contents writer.old) (W.contents writer.new))) }
    ensures isolated_so_far { IfOk result (λ played. OnErr played
        (BeganIsolated mode (R.remaining reader.old) (W.contents writer.old) (W.contents writer.new))) }
    ensures late { IfOk result (λ played. IfErr played (λ e. is_late e ≡ true)) }
{
    let script = read(alloc, reader)?;
    let shape = script.shape();
    let task = mode.task(shape.functions)?;
    Ok(play(alloc, task, &script, writer))
}

/// Reads a script, whole; [`script::Fault::BadScript`] tells its first bad line. It stands by itself, since what reading takes of the
/// stack is to be free again when the events run.
#[inline(never)]
pub fn read<R: Read>(alloc: Global, reader: &mut R) -> Result<Script, script::Fault>
    ensures ok { IfOk result (Says (R.remaining reader.old)) }
    ensures bad { IfErr result (λ e. (n : ℕ) → e ≡ Unread.BadScript n
        → IfSome (R.remaining reader.old) (λ text. script_of text ≡ Err n)) }
{
    Script::read(alloc, reader)
}

/// Gives a script's events to the device that it asks for, and writes what the task asks for. Where writing fails, the
/// writer has a beginning of that.
#[tactic(auto, using(transcript::proofs::Known::nothing_began))]
pub(crate) fn play<W: Write>(
    alloc: Global,
    task: Task,
    script: &Script,
    writer: &mut W,
) -> Result<(), Fault>
    ensures ok { OnOk result (Appends (W.contents writer.old) (W.contents writer.new)
        (text_of task script.now)) }
    ensures err { OnErr result (Began (W.contents writer.old) (W.contents writer.new)
        (text_of task script.now)) }
    ensures late { IfErr result (λ e. is_late e ≡ true) }
{
    let mut output = Output::new(alloc)?;
    tell(alloc, task, script, &mut output, writer)?;
    output.finish(writer)?;
    Ok(())
}

// Makes the memories, each in a box, and gives the lines of what the task asks for to the output.
#[tactic(auto, using(transcript::proofs::Known::nothing_began))]
fn tell<W: Write>(
    alloc: Global,
    task: Task,
    script: &Script,
    output: &mut Output,
    writer: &mut W,
) -> Result<(), Fault>
    ensures ok { OnOk result (Sent (W.contents writer.old) (W.contents writer.new)
        (output.old ++ text_of task script.now) output.new) }
    ensures err { OnErr result (Began (W.contents writer.old) (W.contents writer.new)
        (output.old ++ text_of task script.now)) }
    ensures late { IfErr result (λ e. is_late e ≡ true) }
{
    let shape = script.shape();
    let mut memories = Vec::with_capacity(alloc, usize::from(shape.functions))?;
    for _ in 0..shape.functions {
        let memory = FlatMem::new(alloc, shape.memory_size)?;
        let memory: Box<dyn GuestMem + Send> = Box::new(alloc, memory)?;
        memories.push(memory)?;
    }
    match task {
        Task::Run => run_and_end(alloc, script, memories, output, writer),
        Task::Keep(pool) => keep(alloc, script, pool, memories, output, writer),
        Task::Lone(pool) => {
            let memory = FlatMem::new(alloc, shape.memory_size)?;
            let memory: Box<dyn GuestMem + Send> = Box::new(alloc, memory)?;
            let memories = Memories {
                device: memories,
                alone: memory,
            };
            lone_function(alloc, script, pool, memories, output, writer)
        }
    }
}

// The mode `run`; nobody needs the device afterwards.
#[tactic(auto, using(transcript::proofs::Known::nothing_began))]
fn run_and_end<M: GuestMem, W: Write>(
    alloc: Global,
    script: &Script,
    memories: Vec<M>,
    output: &mut Output,
    writer: &mut W,
) -> Result<(), Fault>
    ensures ok { OnOk result (Sent (W.contents writer.old) (W.contents writer.new)
        (output.old ++ run_text (device_of script.now.device) script.now.events) output.new) }
    ensures err { OnErr result (Began (W.contents writer.old) (W.contents writer.new)
        (output.old ++ run_text (device_of script.now.device) script.now.events)) }
    ensures late { IfErr result (λ e. is_late e ≡ true) }
{
    drop_boxed(run(alloc, script, memories, output, writer)?);
    Ok(())
}
