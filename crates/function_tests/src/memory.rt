//! Values from outside: the limits of a memory's size, and the bytes of words.
use crate::compare::{assert_equal, assert_equal_at};
use Step::*;
use guest_memory::*;
use std::process::Abort;
use std::test::Fail;
use wire_frame::Fault;

#[test]
fn makes_memories_within_limits(rt: HostRuntime) {
    for (size, fault) in [
        (0, Some(Fault::BadMake)),
        (3968, Some(Fault::BadMake)),
        (4096, None),
        (4097, Some(Fault::BadMake)),
        (4160, Some(Fault::BadMake)),
        (65_536, None),
        (16_777_216, None),
        (16_777_344, Some(Fault::BadMake)),
        (u64::MAX, Some(Fault::BadMake)),
    ] {
        assert_equal_at(&rt, FlatMem::new(rt.alloc(), size).err(), fault, size);
    }
}

#[test]
fn reads_what_was_written(rt: HostRuntime) -> Result<(), Fail> {
    let mut memory = FlatMem::new(rt.alloc(), 4096)?;
    assert_eq!(rt; memory.size(), 4096);
    write_words(&mut memory, 4080, 0x1000, 0x3C_0000_0003);
    let mut last = [0u8; 16];
    read_bytes(&memory, 4080, &mut last);
    let bytes = [0, 0x10, 0, 0, 0, 0, 0, 0, 3, 0, 0, 0, 0x3C, 0, 0, 0];
    assert_equal(&rt, last, bytes);
    assert_equal(&rt, read_word(&memory, 4088), 0x3C_0000_0003);
    assert_equal(&rt, read_words(&memory, 4080), (0x1000, 0x3C_0000_0003));
    write_word(&mut memory, 4080, 0x0102_0304_0506_0708);
    write_bytes(&mut memory, 4081, &[0xAA, 0xBB]);
    assert_equal(&rt, read_word(&memory, 4080), 0x0102_0304_05BB_AA08);
    memory.clear();
    assert_equal(&rt, read_words(&memory, 4080), (0, 0));
    Ok(())
}

// Eight bytes of a memory of 64 KiB, read over bytes that are not zero.
fn eight<M: GuestMem>(memory: &M, addr: u64) -> [u8; 8] {
    let mut bytes = [0xFFu8; 8];
    if memory.size() == 65_536 && addr <= 65_528 {
        read_bytes(memory, addr, &mut bytes);
    }
    bytes
}

/// What is done to a memory of 64 KiB, or found in it.
#[derive(Clone, Copy)]
enum Step<'a> {
    /// Bytes are written from an address on.
    Put(u64, &'a [u8]),
    /// Eight bytes are found from an address on.
    Finds(u64, [u8; 8]),
    /// All of it is cleared.
    Clear,
}

/// Does the steps with a new memory.
fn do_steps<R: Abort + AllocGlobal>(rt: &R, steps: &[Step<'_>]) -> Result<(), Fail> {
    let mut memory = FlatMem::new(rt.alloc(), 65_536)?;
    for step in steps {
        match *step {
            Put(addr, bytes) => {
                assert!(rt; memory.size() == 65_536 && addr <= 65_536);
                assert!(rt; bytes.len() as u64 <= 65_536 - addr);
                write_bytes(&mut memory, addr, bytes);
            }
            Finds(addr, bytes) => assert_equal_at(rt, eight(&memory, addr), bytes, addr),
            Clear => memory.clear(),
        }
    }
    Ok(())
}

#[test]
fn has_zeros_where_nothing_was_written(rt: HostRuntime) -> Result<(), Fail> {
    do_steps(
        &rt,
        &[
            Finds(0, [0; 8]),
            // A write high up: before its bytes, over both of its ends, past them, and at the end of the memory.
            Put(0x8004, &[1, 2, 3, 4]),
            Finds(0x7FFC, [0; 8]),
            Finds(0x8000, [0, 0, 0, 0, 1, 2, 3, 4]),
            Finds(0x8006, [3, 4, 0, 0, 0, 0, 0, 0]),
            Finds(0x8008, [0; 8]),
            Finds(65_528, [0; 8]),
            // A write that begins among its bytes and goes on past them, and one that lies within.
            Put(0x8006, &[5, 6, 7]),
            Put(0x8005, &[9]),
            Finds(0x8002, [0, 0, 1, 9, 5, 6, 7, 0]),
            Clear,
            Finds(0x8004, [0; 8]),
            // What was there before does not come back in the gap below a later write.
            Put(65_535, &[8]),
            Finds(0x8004, [0; 8]),
            Finds(65_528, [0, 0, 0, 0, 0, 0, 0, 8]),
        ],
    )
}

// Sets the word at an address, where the memory has it.
fn put_word<M: GuestMem>(memory: &mut M, addr: u64, word: u64) {
    let size = memory.size();
    if size >= 8 && addr <= size - 8 {
        write_word(memory, addr, word);
    }
}

// The word at an address; all ones where the memory hasn't it.
fn word_in<M: GuestMem>(memory: &M, addr: u64) -> u64 {
    let size = memory.size();
    if size >= 8 && addr <= size - 8 {
        read_word(memory, addr)
    } else {
        u64::MAX
    }
}

// Words in the last page, in the first, and in the pages on both sides of 256 KiB, written in no order: each is found, the words beside them
// are zero, and all are when the memory is cleared.
fn find_far_words<R: Abort, M: GuestMem>(rt: &R, mut memory: M) {
    let words = [
        (16_777_208u64, 0x11u64),
        (0x3_FFFC, 0x2222_2222_2222_2222),
        (0, 0x33),
        (0x4_0800, 0x44),
        (0x80_0000, 0x55),
    ];
    for (addr, word) in words {
        put_word(&mut memory, addr, word);
    }
    for (addr, word) in words {
        assert_equal_at(rt, word_in(&memory, addr), word, addr);
    }
    for addr in [8u64, 0x3_FFF4, 0x4_0008, 0x4_0808, 0x7F_FFF8, 0xFF_F7F8] {
        assert_equal_at(rt, word_in(&memory, addr), 0, addr);
    }
    memory.clear();
    for (addr, _) in words {
        assert_equal_at(rt, word_in(&memory, addr), 0, addr);
    }
}

#[test]
fn far_pages_are_apart(rt: HostRuntime) -> Result<(), Fail> {
    for size in [16_777_216] {
        find_far_words(&rt, FlatMem::new(rt.alloc(), size)?);
    }
    Ok(())
}

// Sets the first word, by whatever memory it is; what the memory then holds there.
fn first_word<M: GuestMem>(mut memory: M) -> Option<u64> {
    if memory.size() < 8 {
        return None;
    }
    memory.clear();
    write_word(&mut memory, 0, 7);
    Some(read_word(&memory, 0))
}

#[test]
fn boxes_are_memories(rt: HostRuntime) -> Result<(), Fail> {
    let boxed: Box<dyn GuestMem + Send> = Box::new(rt.alloc(), FlatMem::new(rt.alloc(), 4096)?)?;
    assert_equal(&rt, first_word(boxed), Some(7));
    Ok(())
}
