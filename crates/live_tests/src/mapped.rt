//! A memory in regions that are lent.
ghost use Rattle.std.specs.Prelude.{◌≡◌, IfSome};
ghost use Rattle.live_memory.specs.Trace.{Read, Wrote, with_access};

use crate::compare::assert_equal;
use live_memory::Dma;
use mapped_memory::live_mem::MOST_REGIONS;
use mapped_memory::{LiveMem, MapError};
use std::process::Abort;
use std::test::Fail;
use wire_frame::Fault;

// Writes eight bytes from an address on, and gives the eight from another on; `None` where they pass the end of the memory. The
// memory notes these two accesses behind all before, where others write it.
fn write_and_read<D: Dma<K>, K>(
    memory: &mut D,
    to: u64,
    bytes: [u8; 8],
    from: u64,
) -> Option<[u8; 8]>
    ensures noted { IfSome result (λ out. D.noted memory.new
        ≡ with_access D.shared (with_access D.shared (D.noted memory.old) (Wrote to bytes))
        (Read from out)) }
{
    let last = memory.extent().checked_sub(8)?;
    if to > last || from > last {
        return None;
    }
    memory.store(to, &bytes);
    let mut out = [0xEE; 8];
    memory.load(from, &mut out);
    Some(out)
}

// The last bytes of a PC's ROM: the jump that a processor begins with, and the date of the first BIOS, 04/24/81.
const ROM: [u8; 16] = *b"\xEA\x5B\xE0\x00\xF004/24/81\xFF\xFF\xFF";

// Some memory as a PC has it, on both sides of its holes: the last 8 bytes below the window of the display at 0xA0000, the last 16 of
// the ROM that ends at 0x100000, and the first 16 above. Two regions of three bytes stand nearer than an access is long.
#[test]
fn each_byte_is_that_of_the_region_that_has_its_address(rt: HostRuntime) -> Result<(), Fail> {
    let (mut near, mut beside) = ([0x11; 3], [0x22; 3]);
    let (mut low, mut rom, mut high) = ([0x33; 8], ROM, [0x44; 16]);
    let mut memory = LiveMem::new(rt.alloc(), 0x20_0000)?;
    memory.map(0x1000, &mut near, false)?;
    memory.map(0x1005, &mut beside, false)?;
    memory.map(0x9_FFF8, &mut low, false)?;
    memory.map(0xF_FFF0, &mut rom, true)?;
    memory.map(0x10_0000, &mut high, false)?;
    assert_equal(&rt, memory.regions(), 5);
    let counted = [1, 2, 3, 4, 5, 6, 7, 8];
    let rows: [(u64, u64, [u8; 8]); 8] = [
        // inside a region
        (0x10_0008, 0x10_0008, counted),
        (0x10_0004, 0x10_0000, [0x44, 0x44, 0x44, 0x44, 1, 2, 3, 4]),
        // across two regions and a hole
        (0x1000, 0x1000, [1, 2, 3, 0, 0, 6, 7, 8]),
        // into a hole, and across its beginning and its end
        (0xA_0000, 0xA_0000, [0; 8]),
        (0x9_FFFC, 0x9_FFFC, [1, 2, 3, 4, 0, 0, 0, 0]),
        (0xF_FFEC, 0xF_FFEC, [0, 0, 0, 0, 0xEA, 0x5B, 0xE0, 0]),
        // read-only, alone and before a region that isn't
        (0xF_FFF0, 0xF_FFF5, *b"04/24/81"),
        (0xF_FFFC, 0xF_FFFC, [b'1', 0xFF, 0xFF, 0xFF, 5, 6, 7, 8]),
    ];
    for (to, from, due) in rows {
        let got = write_and_read(&mut memory, to, counted, from);
        assert_equal(&rt, got, Some(due));
    }
    drop(memory);
    assert_equal(&rt, (near, beside), ([1, 2, 3], [6, 7, 8]));
    assert_equal(&rt, low, [0x33, 0x33, 0x33, 0x33, 1, 2, 3, 4]);
    assert_equal(&rt, rom, ROM);
    assert_equal(&rt, high, [5, 6, 7, 8, 1, 2, 3, 4, 5, 6, 7, 8, 5, 6, 7, 8]);
    Ok(())
}

#[test]
fn unmapped_bytes_are_the_lenders_again(rt: HostRuntime) -> Result<(), Fail> {
    let (mut first, mut second) = ([0x11; 8], [0x22; 8]);
    let mut memory = LiveMem::new(rt.alloc(), 4096)?;
    memory.map(0x100, &mut first, false)?;
    memory.map(0x108, &mut second, false)?;
    let written = write_and_read(&mut memory, 0x104, [1, 2, 3, 4, 5, 6, 7, 8], 0x104);
    assert_equal(&rt, written, Some([1, 2, 3, 4, 5, 6, 7, 8]));
    // a region begins at its first address alone
    let inside = memory.unmap(0x101).is_some();
    let cells = memory.unmap(0x100);
    let first = cells.map(|cells| (cells.len(), cells.first().copied(), cells.last().copied()));
    assert_equal(
        &rt,
        (inside, first),
        (false, Some((8, Some(0x11), Some(4)))),
    );
    let left = (memory.regions(), memory.unmap(0x100).is_some());
    assert_equal(&rt, left, (1, false));
    let there = write_and_read(&mut memory, 0x102, [9; 8], 0x104);
    assert_equal(&rt, there, Some([0, 0, 0, 0, 9, 9, 7, 8]));
    Ok(())
}

#[test]
fn regions_are_told_in_the_order_of_their_addresses(rt: HostRuntime) -> Result<(), Fail> {
    let (mut first, mut second) = ([0; 8], [0; 3]);
    let mut memory = LiveMem::new(rt.alloc(), 4096)?;
    let none = memory.region_from(0);
    memory.map(0x200, &mut second, true)?;
    memory.map(0x100, &mut first, false)?;
    let told = [
        none,
        memory.region_from(0x100),
        memory.region_from(0x101),
        memory.region_from(0x201),
    ];
    assert_equal(&rt, told, [None, Some((0x100, 8)), Some((0x200, 3)), None]);
    Ok(())
}

// A memory as its next guest has it: nothing is mapped, and no access is told of. Its room is as before.
#[test]
fn nothing_of_a_memory_is_left_in_a_renewed_one(rt: HostRuntime) -> Result<(), Fail> {
    let (mut first, mut second) = ([7; 8], [0; 8]);
    let mut memory = LiveMem::new(rt.alloc(), 4096)?;
    memory.map(0x100, &mut first, false)?;
    let mut memory = memory.renewed();
    assert_equal(&rt, memory.regions(), 0);
    assert_equal(&rt, memory.extent(), 4096);
    let mapped = memory.map(0x104, &mut second, false).is_ok();
    assert_equal(&rt, mapped, true);
    Ok(())
}

// The regions come in no order, each third goes again, and each is found by its addresses, whichever was accessed before. Behind each
// is a hole.
#[test]
fn each_region_is_found_whatever_came_before(rt: HostRuntime) -> Result<(), Fail> {
    let mut cells = [0u8; 8 * MOST_REGIONS];
    let mut memory = LiveMem::new(rt.alloc(), 4096)?;
    let mut place = 0;
    for region in cells.chunks_mut(8) {
        // 37 is odd, so each of 64 places comes once
        place = (place % MOST_REGIONS + 37) % MOST_REGIONS;
        memory.map(16 * place as u64, region, false)?;
    }
    let mut due = [[0u8; 8]; MOST_REGIONS];
    for turn in 0..MOST_REGIONS {
        let place = (turn * 29) % MOST_REGIONS;
        due[place] = [turn as u8 + 1; 8];
        let at = 16 * place as u64;
        let got = write_and_read(&mut memory, at, due[place], at);
        assert_equal(&rt, got, Some(due[place]));
    }
    for place in 0..MOST_REGIONS {
        if place % 3 == 0 {
            let gone = memory.unmap(16 * place as u64).is_some();
            assert_equal(&rt, gone, true);
            due[place] = [0; 8];
        }
    }
    for turn in 0..MOST_REGIONS {
        let place = (turn * 11) % MOST_REGIONS;
        // what is written to the hole behind it is dropped
        let got = write_and_read(
            &mut memory,
            16 * place as u64 + 8,
            [0xEE; 8],
            16 * place as u64,
        );
        assert_equal(&rt, got, Some(due[place]));
    }
    Ok(())
}

// Why bytes were not mapped at an address, where they were mapped at the next one after that.
fn map_at_either<'a>(
    memory: &mut LiveMem<'a>,
    at: u64,
    next: u64,
    cells: &'a mut [u8],
) -> Option<MapError> {
    let Err(refused) = memory.map(at, cells, false) else {
        return None;
    };
    let why = refused.why;
    memory.map(next, refused.cells, false).ok()?;
    Some(why)
}

#[test]
fn says_why_bytes_are_not_mapped(rt: HostRuntime) -> Result<(), Fail> {
    let (mut first, mut second) = ([0x11; 16], [0x22; 8]);
    let mut memory = LiveMem::new(rt.alloc(), 4096)?;
    memory.map(0x100, &mut first, false)?;
    // The region has addresses 0x100 to 0x10F. Where two reasons hold, the first in the order of `MapError` is told.
    let rows: [(u64, usize, Result<(), MapError>); 11] = [
        (0x110, 0, Err(MapError::NoBytes)),
        (u64::MAX, 0, Err(MapError::NoBytes)),
        (0xFF8, 9, Err(MapError::PastEnd)),
        (0x1000, 1, Err(MapError::PastEnd)),
        (u64::MAX, 1, Err(MapError::PastEnd)),
        (0xF8, 4096, Err(MapError::PastEnd)),
        (0xF8, 9, Err(MapError::Overlaps)),
        (0x10F, 1, Err(MapError::Overlaps)),
        (0, 4096, Err(MapError::Overlaps)),
        (0xF8, 8, Ok(())),
        (0xFF8, 8, Ok(())),
    ];
    for (at, count, due) in rows {
        assert_equal(&rt, memory.can_map(at, count), due);
    }
    let why = map_at_either(&mut memory, 0x10F, 0x110, &mut second);
    let due = (Some(MapError::Overlaps), 2);
    assert_equal(&rt, (why, memory.regions()), due);
    Ok(())
}

#[test]
fn there_are_64_regions_at_most(rt: HostRuntime) -> Result<(), Fail> {
    let mut cells = [0u8; MOST_REGIONS + 1];
    let mut memory = LiveMem::new(rt.alloc(), 4096)?;
    let mut why = None;
    for region in cells.chunks_mut(1) {
        let at = 2 * memory.regions() as u64;
        match memory.map(at, region, false) {
            Ok(()) => {}
            Err(refused) => why = Some(refused.why),
        }
    }
    let due = (64, Some(MapError::TooMany));
    assert_equal(&rt, (memory.regions(), why), due);
    Ok(())
}

// The sizes that a memory may have are those of any guest's memory.
#[test]
fn a_size_outside_the_limits_is_refused(rt: HostRuntime) {
    let refused = LiveMem::new(rt.alloc(), 4000).err();
    assert_equal(&rt, refused, Some(Fault::BadMake));
}

// A descriptor, as two words, then its first word anew, and what is left when all is cleared. `None` where it passes the end.
fn write_descriptor<D: Dma<K>, K>(
    memory: &mut D,
    at: u64,
) -> Option<((u64, u64), u64, (u64, u64))> {
    if at > memory.extent().checked_sub(16)? {
        return None;
    }
    memory.store_words(at, 0x1122_3344_5566_7788, 0x3C_0000_0003);
    let both = memory.load_words(at);
    memory.store_word(at, 5);
    let low = memory.load_word(at);
    memory.erase();
    Some((both, low, memory.load_words(at)))
}

// A descriptor in a region, and one whose last four bytes are in another one, which is read-only. The words are those of a receive
// descriptor that a driver gives, an address, and that a device gives back, 60 bytes with DD and EOP.
#[test]
fn a_descriptor_may_lie_across_regions(rt: HostRuntime) -> Result<(), Fail> {
    let (mut first, mut second) = ([0x11; 28], [0x22; 12]);
    let mut memory = LiveMem::new(rt.alloc(), 4096)?;
    memory.map(0x100, &mut first, false)?;
    memory.map(0x11C, &mut second, true)?;
    let (low, high) = (0x1122_3344_5566_7788, 0x3C_0000_0003);
    let rows = [
        (0x100, ((low, high), 5, (0, 0))),
        (
            0x110,
            ((low, 0x2222_2222_0000_0003), 5, (0, 0x2222_2222_0000_0000)),
        ),
    ];
    for (at, due) in rows {
        let got = write_descriptor(&mut memory, at);
        assert_equal(&rt, got, Some(due));
    }
    Ok(())
}

// What may go to another thread, with the device that has it.
fn passes<T: Send + Drop>(_it: T) {}

#[test]
fn a_memory_may_go_to_another_thread(rt: HostRuntime) -> Result<(), Fail> {
    passes(LiveMem::new(rt.alloc(), 4096)?);
    Ok(())
}
