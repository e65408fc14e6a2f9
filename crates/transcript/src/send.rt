//! Bytes to a writer.
ghost use Rattle.std.specs.Prelude.{◌≡◌, ◌≤◌, length, take, true, IfErr, OnOk, OnErr};
ghost use Rattle.std.specs.Io.KnownBytes.{Appends};
ghost use Rattle.transcript.specs.Known.{Began};

use crate::fault::Fault;
use std::io::{ErrorKind, Write};

/// Writes the bytes. Where that fails, the writer has a beginning of them.
pub fn send<W: Write>(writer: &mut W, bytes: &[u8]) -> Result<(), Fault>
    ensures ok { OnOk result (Appends (W.contents writer.old) (W.contents writer.new) bytes.now) }
    ensures err { OnErr result (Began (W.contents writer.old) (W.contents writer.new) bytes.now) }
    ensures io { IfErr result (λ e. e ≡ Fault.Io) }
{
    match taken(writer, bytes) {
        (_, true) => Ok(()),
        (_, false) => Err(Fault::Io),
    }
}

// Writes the bytes, and tells how many were taken, and whether all were. A write that a signal broke off is done again; the
// turns are counted.
fn taken<W: Write>(writer: &mut W, bytes: &[u8]) -> (usize, bool)
    ensures bound { result.0 ≤ length bytes.now }
    ensures taken { Appends (W.contents writer.old) (W.contents writer.new)
        (take result.0 bytes.now) }
    ensures all { result.1 ≡ true → result.0 ≡ length bytes.now }
{
    let mut sent = 0;
    for _ in 0..u64::MAX {
        if sent >= bytes.len() {
            return (sent, true);
        }
        match writer.write(&bytes[sent..]) {
            Ok(0) => return (sent, false),
            Ok(count) => sent += count,
            Err(error) => {
                if error.kind() != ErrorKind::Interrupted {
                    return (sent, false);
                }
            }
        }
    }
    (sent, false)
}
