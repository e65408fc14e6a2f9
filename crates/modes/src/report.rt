//! What is written of a recorded device.
ghost use Rattle.std.specs.Prelude.{◌≡◌, ◌++◌, true, length, IfOk, IfErr, OnOk, OnErr};
ghost use Rattle.std.specs.Io.KnownBytes.{Appends};
ghost use Rattle.std.specs.String.{string_bytes};
ghost use Rattle.transcript.specs.Known.{Began};
ghost use Rattle.transcript.specs.Lines.{numbered};
ghost use Rattle.modes.specs.Faults.{is_late};
ghost use Rattle.modes.specs.Report.{caller_line, caller_name, line_of, number_end, replay_line, report_text, BeganToReport, Reported, Tells};

use crate::fault::Fault;
use device::Device;
use device_lock::{CALLERS, Caller, Recorded, Share};
use guest_memory::GuestMem;
use std::alloc::{AllocError, Global};
use std::io::Write;
use std::sync::ledger::Ledger;
use transcript::send::send;

/// What is told of a recorded device.
#[derive(Drop)]
pub struct Report {
    /// How many calls are kept.
    pub kept: usize,
    /// How many calls each caller made, in the order of the callers.
    pub calls: [u64; CALLERS],
    /// Whether another device gives the kept answers.
    pub replays: bool,
}

/// Writes how many calls a recorded device has kept, how many each caller made, by the shares of all, and whether another device
/// gives the kept answers: it takes the kept events. [`Fault::Io`] where the writer fails, which has a beginning of that then.
pub fn write_report<M: GuestMem, L: Ledger, W: Write>(
    alloc: Global,
    recorded: &mut Recorded<M, L>,
    shares: Vec<Share<L>>,
    other: &mut Device<M>,
    writer: &mut W,
) -> Result<(), Fault>
    requires { length shares.items ≡ 67 }
    ensures ok { OnOk result
        (Reported recorded.old other.old.world (W.contents writer.old) (W.contents writer.new)) }
    ensures err { OnErr result
        (BeganToReport recorded.old other.old.world (W.contents writer.old) (W.contents writer.new)) }
    ensures late { IfErr result (λ e. is_late e ≡ true) }
{
    let report = tell(recorded, shares, other);
    write(alloc, &report, writer)
}

// What is so of a recorded device and another one.
fn tell<M: GuestMem, L: Ledger>(
    recorded: &mut Recorded<M, L>,
    shares: Vec<Share<L>>,
    other: &mut Device<M>,
) -> Report
    requires { length shares.items ≡ 67 }
    ensures { Tells recorded.old other.old.world result }
{
    let Some(tally) = recorded.gather(shares) else {
        unreachable!()
    };
    let calls = tally.entries;
    Report {
        kept: recorded.kept(),
        calls,
        replays: recorded.replays(other),
    }
}

// Writes a report.
#[tactic(auto, using(transcript::proofs::Known::nothing_began))]
fn write<W: Write>(alloc: Global, report: &Report, writer: &mut W) -> Result<(), Fault>
    ensures ok { OnOk result
        (Appends (W.contents writer.old) (W.contents writer.new) (report_text report.now)) }
    ensures err { OnErr result
        (Began (W.contents writer.old) (W.contents writer.new) (report_text report.now)) }
    ensures late { IfErr result (λ e. is_late e ≡ true) }
{
    let text = text_of(alloc, report)?;
    write_text(text.as_str(), writer)
}

// The text of a report.
#[tactic(auto, unfolding(crate::specs::Report::report_text))]
fn text_of(alloc: Global, report: &Report) -> Result<String, AllocError>
    ensures { IfOk result (λ text. string_bytes text ≡ report_text report.now) }
{
    let mut text = String::from_str(alloc, "history")?;
    push_number(&mut text, report.kept as u64)?;
    push_callers(&mut text, &report.calls)?;
    push_replay(&mut text, report.replays)?;
    Ok(text)
}

// A number after a space, and the end of the line.
#[tactic(auto, unfolding(crate::specs::Report::number_end))]
fn push_number(text: &mut String, number: u64) -> Result<(), AllocError>
    ensures { OnOk result (string_bytes text.new ≡ string_bytes text.old ++ number_end number) }
{
    writeln!(text, " {number}")
}

// The lines of the callers.
fn push_callers(text: &mut String, calls: &[u64; CALLERS]) -> Result<(), AllocError>
    ensures { OnOk result
        (string_bytes text.new ≡ string_bytes text.old ++ numbered line_of 0 calls.now) }
{
    for number in 0..CALLERS {
        let Some(caller) = Caller::from_number(number as u8) else {
            unreachable!()
        };
        push_caller(text, caller, calls[number])?;
    }
    Ok(())
}

// The line of a caller, where it made calls.
#[tactic(auto, unfolding(crate::specs::Report::caller_line))]
fn push_caller(text: &mut String, caller: Caller, count: u64) -> Result<(), AllocError>
    ensures { OnOk result
        (string_bytes text.new ≡ string_bytes text.old ++ caller_line caller count) }
{
    if count == 0 {
        return Ok(());
    }
    text.push_str("caller ")?;
    push_name(text, caller)?;
    push_number(text, count)
}

// The name of a caller.
#[tactic(auto, unfolding(crate::specs::Report::caller_name))]
fn push_name(text: &mut String, caller: Caller) -> Result<(), AllocError>
    ensures { OnOk result (string_bytes text.new ≡ string_bytes text.old ++ caller_name caller) }
{
    match caller {
        Caller::Port(pool) => write!(text, "port{}", pool.get()),
        Caller::Driver => text.push_str("pf"),
        Caller::Pump => text.push_str("pump"),
        Caller::Service => text.push_str("service"),
    }
}

// The line of the replay.
#[tactic(auto, unfolding(crate::specs::Report::replay_line))]
fn push_replay(text: &mut String, replays: bool) -> Result<(), AllocError>
    ensures { OnOk result (string_bytes text.new ≡ string_bytes text.old ++ replay_line replays) }
{
    text.push_str(if replays {
        "replay ok\n"
    } else {
        "replay differs\n"
    })
}

// Writes a text, and flushes the writer.
fn write_text<W: Write>(text: &str, writer: &mut W) -> Result<(), Fault>
    ensures ok { OnOk result (Appends (W.contents writer.old) (W.contents writer.new) text.now) }
    ensures err { OnErr result (Began (W.contents writer.old) (W.contents writer.new) text.now) }
    ensures late { IfErr result (λ e. is_late e ≡ true) }
{
    send(writer, text.as_bytes())?;
    match writer.flush() {
        Ok(()) => Ok(()),
        Err(_) => Err(Fault::Io),
    }
}
