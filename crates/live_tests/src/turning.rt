//! A memory that is another one after each read: what a device makes of a descriptor that changes while it is read.
ghost use Rattle.std.specs.Prelude.{◌≡◌, ◌≤◌, ℕ, length, true};
ghost use Rattle.std.proofs.lemmas.Bool.{true≢false};
ghost use Rattle.live_tests.specs.Turned.{turned, length_turned};

use crate::compare::assert_equal;
use device::{Device, Event, Queue};
use live_memory::{Dma, Shared, Step, Trace};
use live_run::run_live;
use script_support::registers::{ENABLE, PFVFTE, TDBAL0, TDLEN0, TDT0, TXDCTL0};
use std::alloc::Global;
use std::process::Abort;
use std::test::Fail;
use wire_frame::FrameBuf;

// The first read of up to 64 bytes gives `next`, and each read after it `then`. A longer one gives zeros.
#[derive(Drop)]
struct Turning {
    next: [u8; 64],
    then: [u8; 64],
    known: [u8; 4096],
    noted: Trace,
    ghost long: { length next ≡ 64 },
    ghost later: { length then ≡ 64 },
}

impl Dma<Shared> for Turning {
    ghost shared = { true };

    ghost seen = { λ m. m.known };

    ghost answer = { λ m at count. turned count m.next };

    ghost noted = { λ m. m.noted.accesses };

    ghost whole = { λ m at count fits. length_turned count m.next m.long };

    ghost steady = { λ m at count not. absurd (true≢false not) };

    fn extent(&self) -> u64 {
        self.known.len() as u64
    }

    fn notes(&self) -> Trace {
        Step::Rests(&self.noted).trace()
    }

    fn load(&mut self, addr: u64, out: &mut [u8]) {
        if out.len() <= 64 {
            out.copy_from_slice(&self.next[..out.len()]);
        } else {
            out.fill(0);
        }
        self.next = self.then;
        let start = addr as usize;
        let end = start + out.len();
        self.known[start..end].copy_from_slice(out);
        self.noted = Step::Reads(&self.noted, addr, out).trace();
    }

    fn store(&mut self, addr: u64, source: &[u8]) {
        let start = addr as usize;
        let end = start + source.len();
        self.known[start..end].copy_from_slice(source);
        self.noted = Step::Writes(&self.noted, addr, source).trace();
    }

    fn erase(&mut self) {
        let size = self.extent();
        self.noted = Step::Clears(&self.noted, size).trace();
        self.known.fill(0);
    }
}

// A frame of 60 bytes.
fn frame_bytes() -> [u8; 60] {
    let mut bytes = [0u8; 60];
    bytes[0] = 2;
    bytes[6] = 2;
    bytes[11] = 9;
    bytes[12] = 8;
    bytes[59] = 0xAB;
    bytes
}

// Bytes, and zeros behind them.
fn padded(bytes: &[u8]) -> [u8; 64]
    requires { length bytes.now ≤ 64 }
    ensures { length result ≡ 64 }
{
    let mut all = [0u8; 64];
    all[..bytes.len()].copy_from_slice(bytes);
    all
}

// A descriptor of 60 bytes at 0xC00: advanced data, the last of its frame, to be written back.
fn descriptor_bytes() -> [u8; 64]
    ensures { length result ≡ 64 }
{
    let mut bytes = [0u8; 64];
    bytes[1] = 0x0C;
    bytes[8] = 60;
    bytes[10] = 0x30;
    bytes[11] = 0x29;
    bytes
}

// A device over such a memory sends the frame of one descriptor, which is `due`. It takes a memory of whatever kind, and knows
// nothing of it.
fn sends_one<R: Abort, D: Dma<K>, K>(
    rt: &R,
    alloc: Global,
    memory: D,
    due: &[u8],
) -> Result<(), Fail> {
    let mut memories = Vec::new(alloc);
    memories.push(memory)?;
    let mut device = Device::new(alloc, memories)?;
    let events = [
        Event::PfWrite(PFVFTE, 1),
        Event::Open(0),
        Event::VfWrite(0, TDBAL0, 0x800),
        Event::VfWrite(0, TDLEN0, 128),
        Event::VfWrite(0, TXDCTL0, ENABLE),
        Event::VfWrite(0, TDT0, 1),
        Event::Serve(0, Queue::Q0),
    ];
    let answers = run_live(&mut device, alloc, &events)?;
    assert_equal(rt, answers.len(), 7);
    assert_equal(rt, device.wire_len(), 1);
    let mut room = FrameBuf::blank();
    if let Some(frame) = device.wire_at(0, &mut room) {
        assert_equal(rt, frame.bytes(), due);
    }
    Ok(())
}

// The frame is what the second read gave: nothing of the descriptor is read again.
#[test]
fn sends_the_descriptor_that_it_read(rt: HostRuntime) -> Result<(), Fail> {
    let frame = frame_bytes();
    let memory = Turning {
        next: descriptor_bytes(),
        then: padded(&frame),
        known: [0; 4096],
        noted: Step::Begin.trace(),
    };
    sends_one(&rt, rt.alloc(), memory, &frame)
}
