//! Messages of the client that concern the page.
ghost use Rattle.std.specs.Prelude.{◌≡◌, ◌+◌, ◌≤◌, length};
ghost use Rattle.transmit_page.specs.Messages.{number_at, is_command, touched, touched_in, touched_in_bar, is_offer};

use crate::words::{TransmitRegister, register_at};
use byteorder::{ByteOrder, LittleEndian};

/// What a message of the client may change of the transmit registers.
#[derive(Clone, Copy, Debug, PartialEq, Eq)]
pub enum Touched {
    /// Nothing.
    Nothing,
    /// One of them: the queue, and its register.
    One(u8, TransmitRegister),
    /// All of them: it may be a reset.
    All,
}

const GET_REGION_INFO: u16 = 5;

const REGION_WRITE: u16 = 10;

const DEVICE_RESET: u16 = 13;

// Regions: the registers, and the vectors of the function.
const REGISTERS: u32 = 0;

const VECTORS: u32 = 3;

// Registers that may reset the function.
const VFCTRL: u32 = 0x0;

const VFMAILBOX: u32 = 0x2FC;

/// What this message may change. (The card takes no other message that writes registers.)
pub fn touched_by(message: &[u8]) -> Touched
    ensures { result ≡ touched message.now }
{
    if is_command(DEVICE_RESET, message) {
        return Touched::All;
    }
    if is_command(REGION_WRITE, message) && message.len() >= 32 {
        let (low, high) = (word_at(message, 16), word_at(message, 20));
        return touched_in(word_at(message, 24), low, high);
    }
    Touched::Nothing
}

// What a write into a region changes, at an offset of which the low and the high half are given.
fn touched_in(region: u32, low: u32, high: u32) -> Touched
    ensures { result ≡ touched_in region low high }
{
    match region {
        REGISTERS => {
            if high == 0 {
                touched_in_bar(low)
            } else {
                Touched::Nothing
            }
        }
        VECTORS => Touched::Nothing,
        _ => Touched::All,
    }
}

// What a write of a register changes.
fn touched_in_bar(offset: u32) -> Touched
    ensures { result ≡ touched_in_bar offset }
{
    if offset == VFCTRL || offset == VFMAILBOX {
        return Touched::All;
    }
    match register_at(offset) {
        Some((queue, register)) => Touched::One(queue, register),
        None => Touched::Nothing,
    }
}

/// Whether a reply describes a region of which the client may map a part: with it the client gets the page.
pub fn is_offer(reply: &[u8]) -> bool
    ensures { result ≡ is_offer reply.now }
{
    const IS_ERROR: u32 = 0x20;
    const MAY_MAP: u32 = 4;
    is_command(GET_REGION_INFO, reply)
        && reply.len() >= 24
        && word_at(reply, 8) / IS_ERROR % 2 == 0
        && word_at(reply, 20) / MAY_MAP % 2 == 1
}

// Whether a message is of this command.
fn is_command(command: u16, message: &[u8]) -> bool
    ensures { result ≡ is_command command message.now }
{
    message.len() >= 4 && LittleEndian::read_u16(&message[2..]) == command
}

// Four bytes at a place as a number.
fn word_at(bytes: &[u8], at: usize) -> u32
    requires { at + 4 ≤ length bytes.now }
    ensures { result ≡ number_at 4 at bytes.now }
{
    LittleEndian::read_u32(&bytes[at..])
}
