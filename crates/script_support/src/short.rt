//! Scripts and outputs in a short form.
//!
//! A script line that begins with `@` stands for several:
//!
//! | Line | What it stands for |
//! |---|---|
//! | `@pools` | pools 0 to 7 may receive and transmit |
//! | `@receiver P` | function P is opened, holds the address 02:00:00:00:00:0P, and has one receive buffer at 0x4000; receive 0 raises vector 0 and transmit 0 vector 1, both on |
//! | `@sender P FRAME WORD` | function P has the frame at 0x6000 and one transmit descriptor with that second word |
//! | `@send P FRAME WORD` | the same, and its queue is served |
//! | `@wrap T BUFFER` | the ring of function 3 begins anew with head 7 of 8 and tail T; the second buffer has that address |
//!
//! In the other lines a register may have its name of [`registers`](crate::registers), as `RDBAL0`. In a row of registers `RAL+8*3` is
//! the one that stands three times 8 bytes behind the first. `{X*N}` stands for X, N times. An output line `A..B REPLY` stands for a line with that reply for each number.
use crate::registers::{
    ADVANCED, ENABLE, MPSAR, PFVFRE, PFVFTE, RAH, RAL, RDBAL0, RDH0, RDLEN0, RDT0, ROUTES, RXDCTL0,
    SRRCTL0, TDBAL0, TDLEN0, TDT0, TXDCTL0, VALID, VTEIMS, VTIVAR, offset_of,
};
use std::alloc::{AllocError, Global};
use std::test::Fail;

// Where the rings of a function stand.
const RECEIVE_RING: u32 = 0x1000;

const TRANSMIT_RING: u32 = 0x2000;

// Pools 0 to 7 may receive and transmit.
const POOLS: [(u32, u32); 2] = [(PFVFRE, 0xFF), (PFVFTE, 0xFF)];

// A receive queue of eight descriptors, one of which is to be filled, and both messages of queue 0.
const RECEIVER: [(u32, u32); 7] = [
    (RDBAL0, RECEIVE_RING),
    (RDLEN0, 8 * 16),
    (SRRCTL0, ADVANCED | 2),
    (RXDCTL0, ENABLE),
    (RDT0, 1),
    (VTIVAR, ROUTES),
    (VTEIMS, 7),
];

// A transmit queue of eight descriptors, one of which is to be sent.
const SENDER: [(u32, u32); 4] = [
    (TDBAL0, TRANSMIT_RING),
    (TDLEN0, 8 * 16),
    (TXDCTL0, ENABLE),
    (TDT0, 1),
];

/// A script that is done to its end, and its output.
#[derive(Clone, Copy)]
pub struct Case {
    pub name: &'static str,
    pub script: &'static str,
    pub output: &'static str,
}

/// The script that a short form stands for.
pub fn long_script(alloc: Global, short: &str) -> Result<String, Fail> {
    let mut script = String::new(alloc);
    for line in repeated(alloc, short)?.as_str().split_inclusive('\n') {
        match line.trim_end().strip_prefix('@') {
            Some(block) => push_block(&mut script, block)?,
            None => push_line(&mut script, line)?,
        }
    }
    Ok(script)
}

// A line with the offsets of its registers in the place of their names, and else as it is.
fn push_line(script: &mut String, line: &str) -> Result<(), AllocError> {
    for (place, word) in line.split(' ').enumerate() {
        if place > 0 {
            script.push(' ')?;
        }
        let (word, end) = match word.strip_suffix('\n') {
            Some(word) => (word, "\n"),
            None => (word, ""),
        };
        match named(word) {
            Some(offset) => write!(script, "0x{offset:x}{end}")?,
            None => write!(script, "{word}{end}")?,
        }
    }
    Ok(())
}

// The offset that a word stands for: the name of a register, or of the first of a row and how many bytes stand before.
fn named(word: &str) -> Option<u32> {
    let Some((first, behind)) = word.split_once('+') else {
        return offset_of(word);
    };
    let (step, place) = behind.split_once('*')?;
    let before = step.parse::<u32>().ok()?.wrapping_mul(place.parse().ok()?);
    Some(offset_of(first)?.wrapping_add(before))
}

/// The output that a short form stands for.
pub fn long_output(alloc: Global, short: &str) -> Result<String, Fail> {
    let mut output = String::new(alloc);
    for line in repeated(alloc, short)?.as_str().lines() {
        match line.split_once("..") {
            Some((first, rest)) => {
                let (last, reply) = rest.split_once(' ').ok_or("a range without a reply")?;
                for number in first.parse::<u32>()?..=last.parse::<u32>()? {
                    writeln!(output, "{number} {reply}")?;
                }
            }
            None => writeln!(output, "{line}")?,
        }
    }
    Ok(output)
}

// The text with each `{X*N}` written out.
fn repeated(alloc: Global, short: &str) -> Result<String, Fail> {
    let mut text = String::new(alloc);
    for part in short.split('{') {
        match part.split_once('}') {
            Some((run, after)) => {
                let (what, count) = run.split_once('*').ok_or("a run without a count")?;
                for _ in 0..count.parse::<u32>()? {
                    text.push_str(what)?;
                }
                text.push_str(after)?;
            }
            None => text.push_str(part)?,
        }
    }
    Ok(text)
}

// The lines that a block stands for.
fn push_block(script: &mut String, block: &str) -> Result<(), Fail> {
    let mut words = block.split(' ');
    let name = words.next().ok_or("no name")?;
    let (first, second, third) = (words.next(), words.next(), words.next());
    match (name, first, second, third) {
        ("pools", _, _, _) => push_settings(script, &POOLS)?,
        ("receiver", Some(pool), _, _) => push_receiver(script, pool.parse()?)?,
        ("sender", Some(pool), Some(frame), Some(word)) => {
            push_sender(script, pool.parse()?, frame, word)?;
        }
        ("send", Some(pool), Some(frame), Some(word)) => {
            push_sender(script, pool.parse()?, frame, word)?;
            writeln!(script, "serve {pool} 0")?;
        }
        ("wrap", Some(tail), Some(buffer), _) => push_wrap(script, tail.parse()?, buffer)?,
        _ => return Err(Fail::from("no such block")),
    }
    Ok(())
}

/// Writes of registers of the physical function.
pub fn push_settings(script: &mut String, settings: &[(u32, u32)]) -> Result<(), AllocError> {
    for (offset, value) in settings {
        writeln!(script, "pw 0x{offset:x} 0x{value:x}")?;
    }
    Ok(())
}

/// Writes of registers of a function.
pub fn push_writes(
    script: &mut String,
    function: u32,
    registers: &[(u32, u32)],
) -> Result<(), AllocError> {
    for (offset, value) in registers {
        writeln!(script, "w {function} 0x{offset:x} 0x{value:x}")?;
    }
    Ok(())
}

// Opens a function, gives it its address and one receive buffer.
fn push_receiver(script: &mut String, pool: u32) -> Result<(), AllocError> {
    let pool = pool % 8;
    let address = [
        (RAL + 8 * pool, 0x2),
        (RAH + 8 * pool, VALID | pool << 8),
        (MPSAR + 8 * pool, 1 << pool),
    ];
    writeln!(script, "open {pool}")?;
    push_settings(script, &address)?;
    writeln!(script, "mw {pool} 0x{RECEIVE_RING:x} 0040000000000000")?;
    push_writes(script, pool, &RECEIVER)
}

// Gives a function a frame and one transmit descriptor.
fn push_sender(script: &mut String, pool: u32, frame: &str, word: &str) -> Result<(), AllocError> {
    writeln!(script, "mw {pool} 0x6000 {frame}")?;
    writeln!(
        script,
        "mw {pool} 0x{TRANSMIT_RING:x} 0060000000000000.{word}"
    )?;
    push_writes(script, pool, &SENDER)
}

// Lets the ring of function 3 wrap after its next descriptor, with buffers of 1 KiB.
fn push_wrap(script: &mut String, tail: u32, buffer: &str) -> Result<(), AllocError> {
    let begins_anew = [
        (RXDCTL0, 0),
        (RDH0, 7),
        (RDT0, tail),
        (SRRCTL0, ADVANCED | 1),
    ];
    push_writes(script, 3, &begins_anew)?;
    writeln!(script, "mw 3 0x1070 0040000000000000")?;
    writeln!(script, "mw 3 0x{RECEIVE_RING:x} {buffer}")?;
    push_writes(script, 3, &[(RXDCTL0, ENABLE)])
}
