//! A memory that nobody else writes.

use crate::compare::assert_equal;
use guest_memory::{FlatMem, GuestMem};
use live_memory::Dma;
use std::process::Abort;
use std::test::Fail;

// Each kind of access to a memory of 4096 bytes.
fn reads_back<D: Dma<K>, K>(memory: &mut D) -> Option<([u8; 2], u64, (u64, u64), u64)> {
    if memory.extent() != 4096 {
        return None;
    }
    memory.store_word(0, 1);
    memory.erase();
    memory.store_word(8, 0x0102_0304_0506_0708);
    memory.store_words(4080, 0x1000, 0x3C_0000_0003);
    memory.store(9, &[0xAA, 0xBB]);
    let mut bytes = [0u8; 2];
    memory.load(9, &mut bytes);
    Some((
        bytes,
        memory.load_word(8),
        memory.load_words(4080),
        memory.load_word(0),
    ))
}

#[test]
fn reads_what_was_written(rt: HostRuntime) -> Result<(), Fail> {
    let due = (
        [0xAA, 0xBB],
        0x0102_0304_05BB_AA08,
        (0x1000, 0x3C_0000_0003),
        0,
    );
    let mut memory = FlatMem::new(rt.alloc(), 4096)?;
    assert_equal(&rt, reads_back(&mut memory), Some(due));
    let mut boxed: Box<dyn GuestMem + Send> = Box::new(
        rt.alloc(),
        FlatMem::new(rt.alloc(), 4096)?,
    )?;
    assert_equal(&rt, reads_back(&mut boxed), Some(due));
    Ok(())
}
