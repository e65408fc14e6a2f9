//! One script over memories of two kinds side by side.
use super::check::{assert_written, run_in};
use guest_memory::{FlatMem, GuestMem};
use modes::Mode;
use modes::run::run;
use script::Script;
use script_support::short::{long_output, long_script};
use std::alloc::Global;
use std::test::Fail;
use transcript::Output;

// A memory whose bytes stand in one piece, as a kind of memory of its own.
#[derive(Drop)]
struct OnePiece {
    cells: Vec<u8>,
}

impl GuestMem for OnePiece {
    ghost bytes = { λ m. m.cells.items };

    fn size(&self) -> u64 {
        self.cells.len() as u64
    }

    fn read_at(&self, addr: u64, out: &mut [u8]) {
        let start = addr as usize;
        out.copy_from_slice(&self.cells[start..start + out.len()]);
    }

    fn write_at(&mut self, addr: u64, source: &[u8]) {
        let start = addr as usize;
        self.cells[start..start + source.len()].copy_from_slice(source);
    }

    fn clear(&mut self) {
        self.cells.fill(0);
    }
}

// Function 5 sends a frame to function 3, one from the wire goes to 5, and both read what came; function 5 is opened again.
const SCRIPT: &str = "vfs 8 65536\n\
    @pools\n\
    @receiver 3\n\
    @receiver 5\n\
    pw PFDTXGSWC 1\n\
    @send 5 0200000000030200000000990800.00*46 3c00302900000000\n\
    mr 3 0x1000 16\n\
    mr 3 0x4000 16\n\
    wire 0200000000050200000000990800.00*46\n\
    mr 5 0x4000 14\n\
    end 5\n\
    open 5\n\
    mr 5 0x4000 14\n";

const OUTPUT: &str = "1..33 ok\n\
    34 sent !3:1 !5:2\n\
    35 bytes 0000000000000000030004003c000000\n\
    36 bytes 02000000000302000000009908000000\n\
    37 ok !5:1\n\
    38 bytes 0200000000050200000000990800\n\
    39 ok\n\
    40 ok\n\
    41 bytes 0000000000000000000000000000\n";

// What a run of a script over these memories writes.
fn written_over<M: GuestMem>(
    alloc: Global,
    script: &str,
    memories: Vec<M>,
) -> Result<Vec<u8>, Fail> {
    let script = Script::read(alloc, &mut script.as_bytes())?;
    let (mut output, mut written) = (Output::new(alloc)?, Vec::new(alloc));
    let _ = run(alloc, &script, memories, &mut output, &mut written)?;
    output.finish(&mut written)?;
    Ok(written)
}

#[test]
fn boxes_of_two_kinds_serve_side_by_side(rt: HostRuntime) -> Result<(), Fail> {
    let alloc = rt.alloc();
    let script = long_script(alloc, SCRIPT)?;
    let output = long_output(alloc, OUTPUT)?;
    let mut boxes: Vec<Box<dyn GuestMem + Send>> = Vec::new(alloc);
    for _ in 0..4 {
        let memory = FlatMem::new(alloc, 65_536)?;
        boxes.push(Box::new(alloc, memory)?)?;
    }
    for _ in 4..8 {
        let cells = vec![in alloc; 0; 65_536]?;
        boxes.push(Box::new(alloc, OnePiece { cells })?)?;
    }
    let written = written_over(alloc, script.as_str(), boxes)?;
    assert_written(
        &rt,
        (Ok(()), written),
        output.as_str(),
        (Mode::Run, "two kinds"),
    );
    let run = run_in(alloc, Mode::Run, script.as_str());
    assert_written(&rt, run, output.as_str(), (Mode::Run, "one kind"));
    Ok(())
}
