//! Sums of bytes.
use crate::compare::assert_equal_at;
use internet_checksum::{checksum, never_zero, sum};
use rand_pcg::Pcg32;
use rand_pcg::rand_core::Rng;
use std::test::Fail;

/// RFC 1071, section 3: its eight bytes, and the same without the last one; an IPv4 header from RFC 791's fields as a wire had it, with
/// its checksum B861 as 0 and in its place; no bytes; and bytes that come to 0 by carries alone.
#[test]
fn known(rt: HostRuntime) -> Result<(), Fail> {
    for (text, start, due) in [
        ("0001f203f4f5f6f7", 0, 0xDDF2),
        ("0001f203f4f5f6", 0, 0xDCFB),
        ("450000730000400040110000c0a80001c0a800c7", 0, 0x479E),
        ("45000073000040004011b861c0a80001c0a800c7", 0, 0xFFFF),
        ("", 0, 0),
        ("", 0xFFFF, 0xFFFF),
        ("ffff", 0xFFFF, 0xFFFF),
        ("00", 0, 0),
        ("01", 1, 0x0101),
        ("fffffffffffffffffffffffffffffffe", 1, 0xFFFF),
        ("fffffffffffffffffffffffffffffffe", 2, 1),
    ] {
        let bytes = hex::decode(rt.alloc(), text)?;
        assert_equal_at(&rt, sum(bytes.as_slice(), start), due, (text, start));
    }
    Ok(())
}

/// A checksum is the sum turned over, and UDP has no 0.
#[test]
fn turned_over(rt: HostRuntime) {
    assert_equal_at(
        &rt,
        checksum(&[0x00, 0x01, 0xF2, 0x03, 0xF4, 0xF5, 0xF6, 0xF7]),
        0x220D,
        0,
    );
    assert_equal_at(&rt, checksum(&[]), 0xFFFF, 1);
    assert_equal_at(&rt, checksum(&[0xFF, 0xFF]), 0, 2);
    assert_equal_at(
        &rt,
        (never_zero(0), never_zero(1), never_zero(0xFFFF)),
        (0xFFFF, 1, 0xFFFF),
        3,
    );
}

/// 20,000 times up to 300 bytes by chance, at each place that a word can have, beside a sum that carries after each word.
#[test]
fn by_chance(rt: HostRuntime) -> Result<(), Fail> {
    let mut chance = Pcg32::new(42, 54);
    let mut bytes = [0u8; 300];
    for round in 0..20_000u32 {
        let word = chance.next_u32();
        let place = (word % 300) as usize;
        bytes[place] = (word / 65_536 % 256) as u8;
        let size = (chance.next_u32() % 301) as usize;
        let start = (chance.next_u32() % 65_536) as u16;
        let Some(front) = bytes.get(..size) else {
            return Err("no such size".into());
        };
        assert_equal_at(&rt, sum(front, start), plain_sum(front, start), round);
    }
    Ok(())
}

/// The same sum by another way: after each byte what is carried comes back.
pub fn plain_sum(bytes: &[u8], start: u16) -> u16 {
    let mut total = start;
    let mut is_high = true;
    for byte in bytes {
        let more = if is_high {
            u16::from(*byte) * 256
        } else {
            u16::from(*byte)
        };
        total = match total.checked_add(more) {
            Some(added) => added,
            None => total.wrapping_add(more).wrapping_add(1),
        };
        is_high = !is_high;
    }
    total
}
