//! What is set up before a workload, and between its turns.
use crate::workload::{RECEIVER, SENDER, Workload};
use addr_tables::registers::{MPSAR, RAH, RAL, VALID};
use anyhow::Result;
use device::{Device, MemSlice};
use live_memory::Dma;
use pool_filter::registers::{BAM, LOOPBACK, PFDTXGSWC, PFVFRE, PFVFSPOOF, PFVFTE, VMOLR};
use vf_unit::offsets::*;
use wire_frame::FrameBuf;

/// How many bytes a guest's memory has.
pub const MEMORY: u64 = 262_144;
/// How many descriptors a ring has.
pub const COUNT: u32 = 4096;
/// How many of them the device is given at once, every so many turns.
pub const GIVEN: u32 = COUNT / 2;
/// Where the ring of a receive queue begins.
const RECEIVE_RING: u32 = 0x1_0000;
/// Where the ring of a transmit queue begins.
const TRANSMIT_RING: u32 = 0x2_0000;
/// Where the frame lies that each transmit descriptor names.
const SENT_AT: u32 = 0x3_0000;
/// A data descriptor that ends a frame of 60 bytes and asks for a report, but for the buffer's address.
const LAST_DATA: u64 = 0x2930_003C;
/// How a receive queue is set up: buffers of 2 KiB, and each frame issues a message.
const RECEIVE: [(u32, u32); 7] = [
    (VTIVAR, 0x8180),
    (VTEIAC, 7),
    (VTEIMS, 7),
    (RDBAL0, RECEIVE_RING),
    (RDLEN0, 16 * COUNT),
    (SRRCTL0, ADVANCED << DESCTYPE | 2),
    (RXDCTL0, 1 << ENABLE),
];
/// How a transmit queue is set up.
const TRANSMIT: [(u32, u32); 3] = [
    (TDBAL0, TRANSMIT_RING),
    (TDLEN0, 16 * COUNT),
    (TXDCTL0, 1 << ENABLE),
];

/// A frame of `len` bytes, 14 to 1518, from the sender for the receiver, or for everybody.
pub fn frame_of(len: usize, broadcast: bool) -> Result<FrameBuf> {
    let mut bytes = [0x5A; 1518];
    write_addresses(&mut bytes, broadcast);
    Ok(FrameBuf::from_bytes(&bytes[..len.min(1518)])?)
}

// Writes the addresses of a frame and its type, which is none of a tag.
fn write_addresses(bytes: &mut [u8; 1518], broadcast: bool) {
    let [to_all, to_one] = [[0xFF; 6], [2, 0, 0, 0, 0, RECEIVER]];
    bytes[..6].copy_from_slice(if broadcast { &to_all } else { &to_one });
    bytes[6..14].copy_from_slice(&[2, 0, 0, 0, 0, SENDER, 8, 0]);
}

/// Sets a device up for a workload, whatever it was.
pub fn set_up<D: Dma<K>, K>(device: &mut Device<D, K>, workload: Workload) -> Result<()> {
    device.reset();
    for pool in 0..workload.pools() {
        open(device, pool)?;
    }
    if workload == Workload::Service {
        device.pf_write(PFDTXGSWC, 1 << LOOPBACK)?;
        device.pf_write(PFVFSPOOF.first, 1)?;
        fill_transmit_ring(device)?;
    }
    Ok(())
}

// Opens a function that has an address of its own, takes broadcasts, and whose receive queue is on.
fn open<D: Dma<K>, K>(device: &mut Device<D, K>, pool: u8) -> Result<()> {
    let entry = u32::from(pool);
    for half in 0..2 {
        device.pf_write(PFVFRE.first + 4 * half, u32::MAX)?;
        device.pf_write(PFVFTE.first + 4 * half, u32::MAX)?;
    }
    device.pf_write(RAL.first + 8 * entry, 2)?;
    device.pf_write(RAH.first + 8 * entry, 1 << VALID | entry << 8)?;
    device.pf_write(
        MPSAR.first + 8 * entry + 4 * (entry / 32),
        1 << (entry % 32),
    )?;
    device.pf_write(VMOLR.first + 4 * entry, 1 << BAM)?;
    device.open(pool)?;
    // A memory stores what lies between the first and the last byte written, and a driver wrote its rings.
    for at in 0..72 {
        device.mem_write(pool, 2048 * at, MemSlice::new(&[0; 2048])?)?;
    }
    for (offset, value) in RECEIVE {
        device.vf_write(pool, offset, value)?;
    }
    Ok(())
}

// Gives the sender a transmit queue that is on, each of whose descriptors sends the same frame.
fn fill_transmit_ring<D: Dma<K>, K>(device: &mut Device<D, K>) -> Result<()> {
    let frame = frame_of(60, false)?;
    device.mem_write(SENDER, u64::from(SENT_AT), MemSlice::new(frame.bytes())?)?;
    for place in 0..COUNT {
        let at = u64::from(TRANSMIT_RING + 16 * place);
        device.mem_write(
            SENDER,
            at,
            MemSlice::new(&u64::from(SENT_AT).to_le_bytes())?,
        )?;
        device.mem_write(SENDER, at + 8, MemSlice::new(&LAST_DATA.to_le_bytes())?)?;
    }
    for (offset, value) in TRANSMIT {
        device.vf_write(SENDER, offset, value)?;
    }
    Ok(())
}

/// Gives the device descriptors for the turns from `turn` on.
pub fn give<D: Dma<K>, K>(device: &mut Device<D, K>, workload: Workload, turn: u32) {
    let tail = (turn % COUNT + GIVEN) % COUNT;
    match workload {
        Workload::WireShort | Workload::WireLong => set_tail(device, RECEIVER, RDT0, tail),
        Workload::Broadcast => {
            for pool in 0..64 {
                set_tail(device, pool, RDT0, tail);
            }
        }
        Workload::Service => {
            set_tail(device, RECEIVER, RDT0, tail);
            set_tail(device, SENDER, TDT0, tail);
        }
        _ => {}
    }
}

// Writes a tail. A refusal shows in what comes of the turns.
fn set_tail<D: Dma<K>, K>(device: &mut Device<D, K>, pool: u8, offset: u32, tail: u32) {
    let _ = device.vf_write(pool, offset, tail);
}
