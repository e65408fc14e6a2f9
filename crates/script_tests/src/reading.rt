//! Values from outside: what texts say by the grammar, written out by hand, and readers that break off.
use crate::compare::assert_equal;
use device::{Queue, Request};
use script::{Fault, Scratch, Script};
use std::alloc::{AllocError, Global};
use std::process::Abort;
use std::test::Fail;

mod bad_lines;
mod breaking;
mod limits;
mod says;

// What a script says in a plain form: its device with the frame limit, and each event with decimal numbers. Bytes are runs,
// each of two digits, `*` and how often the byte stands.
fn plain(alloc: Global, script: &Script) -> Result<String, AllocError> {
    let mut text = String::new(alloc);
    let shape = script.shape();
    writeln!(
        text,
        "vfs {} {} {}",
        shape.functions,
        shape.memory_size,
        shape.limit.get()
    )?;
    let mut scratch = Scratch::new();
    for index in 0..script.len() {
        push_request(&mut text, script.request(index, &mut scratch))?;
    }
    Ok(text)
}

// The line of an event.
fn push_request(text: &mut String, request: Request<'_>) -> Result<(), AllocError> {
    match request {
        Request::Open(pool) => writeln!(text, "open {pool}"),
        Request::End(pool) => writeln!(text, "end {pool}"),
        Request::Flr(pool) => writeln!(text, "flr {pool}"),
        Request::VfRead(pool, offset) => writeln!(text, "r {pool} {offset}"),
        Request::VfWrite(pool, offset, value) => writeln!(text, "w {pool} {offset} {value}"),
        Request::MemRead(pool, at, count) => writeln!(text, "mr {pool} {at} {count}"),
        Request::MemWrite(pool, at, bytes) => {
            write!(text, "mw {pool} {at} ")?;
            push_bytes(text, bytes.bytes())
        }
        Request::Serve(pool, Queue::Q0) => writeln!(text, "serve {pool} 0"),
        Request::Serve(pool, Queue::Q1) => writeln!(text, "serve {pool} 1"),
        Request::PfRead(offset) => writeln!(text, "pr {offset}"),
        Request::PfWrite(offset, value) => writeln!(text, "pw {offset} {value}"),
        Request::PfReset => writeln!(text, "preset"),
        Request::Wire(frame) => {
            write!(text, "wire ")?;
            push_bytes(text, frame.bytes())
        }
    }
}

// Bytes as runs, and the end of a line.
fn push_bytes(text: &mut String, bytes: &[u8]) -> Result<(), AllocError> {
    let mut count = 0usize;
    for (index, byte) in bytes.iter().enumerate() {
        count = count.saturating_add(1);
        if bytes.get(index.saturating_add(1)) != Some(byte) {
            write!(text, "{byte:02x}*{count}.")?;
            count = 0;
        }
    }
    writeln!(text)
}

// What is said by a text: its plain form, or why it isn't read.
fn said(alloc: Global, text: &[u8]) -> Result<Result<String, Fault>, AllocError> {
    let mut reader = text;
    match Script::read(alloc, &mut reader) {
        Ok(script) => Ok(Ok(plain(alloc, &script)?)),
        Err(fault) => Ok(Err(fault)),
    }
}

// A text that says this.
fn check_said<R: Abort + AllocGlobal>(rt: &R, text: &[u8], wanted: &str) -> Result<(), Fail> {
    let said = said(rt.alloc(), text)??;
    assert_equal(rt, said.as_str(), wanted);
    Ok(())
}

// A text that isn't read.
fn check_unread<R: Abort + AllocGlobal>(rt: &R, text: &[u8], fault: Fault) -> Result<(), Fail> {
    let mut reader = text;
    match Script::read(rt.alloc(), &mut reader) {
        Ok(_) => Err(Fail::from("a bad script is read")),
        Err(other) => {
            assert_equal(rt, other, fault);
            Ok(())
        }
    }
}

// A text and then another, so many times.
fn repeated(alloc: Global, head: &str, line: &str, count: u32) -> Result<Vec<u8>, AllocError> {
    let mut text = Vec::from_slice(alloc, head.as_bytes())?;
    for _ in 0..count {
        text.extend_from_slice(line.as_bytes())?;
    }
    Ok(text)
}
