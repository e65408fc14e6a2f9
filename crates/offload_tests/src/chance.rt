//! Segments of frames by chance, beside a plain second way to make them: byte by byte, with sums that carry after each word.
use crate::checksums::plain_sum;
use crate::compare::{assert_equal, assert_equal_at};
use offload::{Context, Cut, Ip};
use rand_pcg::Pcg32;
use rand_pcg::rand_core::Rng;
use std::test::Fail;

/// The most bytes of a frame here.
const MOST: usize = 500;

/// 100 frames of IPv4 and IPv6 with headers of all lengths, up to 200 bytes of payload and an MSS of 1 to 100; every byte of the frames
/// is by chance, the driver's fields too.
#[test]
fn by_chance(rt: HostRuntime) -> Result<(), Fail> {
    let mut chance = Pcg32::new(59, 1);
    let mut frame = [0u8; MOST];
    for round in 0..100u32 {
        for byte in frame.iter_mut() {
            *byte = (chance.next_u32() % 256) as u8;
        }
        let is_v4 = chance.next_u32() % 2 == 0;
        let (least, tucmd) = if is_v4 {
            (20u64, 0x0C00u64)
        } else {
            (40, 0x0800)
        };
        let iplen = least.wrapping_add(u64::from(chance.next_u32() % 60));
        let maclen = u64::from(chance.next_u32() % 128);
        let l4len = u64::from(20 + chance.next_u32() % 50);
        let mss = u64::from(1 + chance.next_u32() % 100);
        let context = Context::decode(
            iplen.wrapping_add(maclen * 0x200),
            tucmd
                .wrapping_add(l4len * 0x0100_0000_0000)
                .wrapping_add(mss * 0x0001_0000_0000_0000),
        );
        let size = context
            .payload_at()
            .wrapping_add((1 + chance.next_u32() % 200) as usize);
        let Some(bytes) = frame.get(..size) else {
            continue;
        };
        let Ok(cut) = Cut::of(&context, bytes.len(), 500) else {
            return Err("it can be cut".into());
        };
        for number in 0..cut.count() {
            let mut copy = copy_of(&frame);
            let Some(cells) = copy.get_mut(..size) else {
                continue;
            };
            let mut kept = [0x5Au8; 500];
            let place = cut.place(number);
            let length = cut.segment(cells, number, &mut kept);
            let mut due = copy_of(&frame);
            let due_length = plain_segment(&context, bytes, number, cut.count(), &mut due);
            assert_equal_at(&rt, length, due_length, (round, number));
            assert_equal(
                &rt,
                cells.get(place..place.wrapping_add(length)) == due.get(..length),
                true,
            );
            cut.put_back(cells, number, &kept);
            assert_equal(&rt, copy == frame, true);
        }
    }
    Ok(())
}

fn copy_of(frame: &[u8; MOST]) -> [u8; MOST] {
    let mut copy = [0u8; MOST];
    copy.copy_from_slice(frame);
    copy
}

fn byte_at(bytes: &[u8], place: usize) -> u8 {
    bytes.get(place).copied().unwrap_or(0)
}

fn put(bytes: &mut [u8], place: usize, byte: u8) {
    if let Some(slot) = bytes.get_mut(place) {
        *slot = byte;
    }
}

fn word_at(bytes: &[u8], place: usize) -> u32 {
    u32::from(byte_at(bytes, place)) * 256 + u32::from(byte_at(bytes, place.wrapping_add(1)))
}

fn put_word(bytes: &mut [u8], place: usize, word: u32) {
    put(bytes, place, (word / 256 % 256) as u8);
    put(bytes, place.wrapping_add(1), (word % 256) as u8);
}

// The sum of the bytes between two places.
fn sum_between(bytes: &[u8], from: usize, to: usize, start: u16) -> u16 {
    match bytes.get(from..to) {
        Some(part) => plain_sum(part, start),
        None => 0,
    }
}

fn plain_segment(c: &Context, frame: &[u8], number: usize, count: usize, out: &mut [u8]) -> usize {
    let ip_at = usize::from(c.maclen);
    let tcp_at = ip_at + usize::from(c.iplen);
    let data_at = tcp_at + usize::from(c.l4len);
    let before = number.wrapping_mul(usize::from(c.mss));
    let mut size = data_at;
    for place in 0..data_at {
        put(out, place, byte_at(frame, place));
    }
    for place in 0..usize::from(c.mss) {
        let from = data_at.wrapping_add(before).wrapping_add(place);
        if from < frame.len() {
            put(out, size, byte_at(frame, from));
            size = size.wrapping_add(1);
        }
    }
    let behind = (size.wrapping_sub(tcp_at) % 65_536) as u32;
    put_sequence(out, tcp_at.wrapping_add(4), before);
    put_flags(
        out,
        tcp_at.wrapping_add(13),
        number == 0,
        number.wrapping_add(1) == count,
    );
    if c.ip == Ip::V4 {
        put_word(out, ip_at + 2, behind.wrapping_add(u32::from(c.iplen)));
        put_word(
            out,
            ip_at + 4,
            word_at(frame, ip_at + 4).wrapping_add((number % 65_536) as u32),
        );
        put_word(out, ip_at + 10, 0);
        let sum = sum_between(out, ip_at, tcp_at, 0);
        put_word(out, ip_at + 10, 65_535 - u32::from(sum));
    } else {
        put_word(
            out,
            ip_at + 4,
            behind.wrapping_add(u32::from(c.iplen)).wrapping_sub(40),
        );
    }
    put_word(out, tcp_at.wrapping_add(16), 0);
    let pseudo = plain_sum(&[0, 6, (behind / 256 % 256) as u8, (behind % 256) as u8], 0);
    let (from, to) = if c.ip == Ip::V4 { (12, 20) } else { (8, 40) };
    let with_addresses = sum_between(out, ip_at + from, ip_at + to, pseudo);
    let sum = sum_between(out, tcp_at, size, with_addresses);
    put_word(out, tcp_at.wrapping_add(16), 65_535 - u32::from(sum));
    size
}

// The sequence number, carried from byte to byte.
fn put_sequence(bytes: &mut [u8], place: usize, before: usize) {
    let low = word_at(bytes, place.wrapping_add(2)).wrapping_add((before % 65_536) as u32);
    let high = word_at(bytes, place)
        .wrapping_add((before / 65_536 % 65_536) as u32)
        .wrapping_add(low / 65_536);
    put_word(bytes, place, high);
    put_word(bytes, place.wrapping_add(2), low);
}

fn put_flags(bytes: &mut [u8], place: usize, is_first: bool, is_last: bool) {
    let mut flags = byte_at(bytes, place);
    if !is_first && flags >= 0x80 {
        flags -= 0x80;
    }
    if !is_last && flags / 8 % 2 == 1 {
        flags -= 8;
    }
    if !is_last && flags % 2 == 1 {
        flags -= 1;
    }
    put(bytes, place, flags);
}
