//! What is answered, as bytes.
ghost use Rattle.std.specs.Prelude.{◌≡◌, ◌↔◌, ◌≤◌, ◌+◌, ℕ, ◌++◌, drop, take, length, IsTrue};
ghost use Rattle.vfio_user.specs.Replies.{head_bytes, version_bytes, range_bytes, info_bytes, region_info_bytes, area_bytes, irq_info_bytes, region_bytes, laid_bytes, reply_bytes, needed, region_flags, capability_at, capability_bytes, HasItsBytes, of_lent};

use crate::MOST_DATA;
use crate::errno::Errno;
use crate::header::Header;
use crate::request::{Range, Region, RegionQuery};
use byteorder::{ByteOrder, LittleEndian};

// What a server tells of itself, with the NUL that ends it.
const CAPABILITIES: [u8; 94] =
    *b"{\"capabilities\":{\"max_msg_fds\":8,\"max_data_xfer_size\":4096,\"pgsizes\":4096,\"max_dma_maps\":64}}\0";

/// Bytes of a region that a client may map (VFIO region info cap sparse mmap).
#[derive(Clone, Copy, Debug, PartialEq, Eq)]
pub struct Area {
    /// How many bytes of the region stand in front of them.
    pub offset: u64,
    /// How many they are.
    pub size: u64,
}

/// What is answered. `B` is the form of the bytes that were read: `&[u8]`.
#[derive(Clone, Copy, Debug, PartialEq, Eq)]
pub enum Reply<B> {
    /// It is done: to DMA_MAP, DEVICE_SET_IRQS and DEVICE_RESET.
    Done,
    /// It is refused: to any command.
    Failed(Errno),
    /// To VERSION: major and minor. Major is that of the request, and minor not above it. The capabilities follow, a constant text.
    Version(u16, u16),
    /// To DMA_UNMAP: the range that was asked for.
    Unmapped(Range),
    /// To DEVICE_GET_INFO: how many regions and how many types of interrupts there are, of a PCI device that can be reset.
    Info(u32, u32),
    /// To DEVICE_GET_REGION_INFO: what was asked, the bytes of the region, and an area of it that the client may map, if there is one.
    ///
    /// A region can be read and written, or it has no bytes. Where there is an area, the region's file goes with each reply; its first
    /// byte is the region's. The capability that names the area needs 64 bytes behind the header: to a client that has room for fewer
    /// the reply says so by argsz, and where the capability would stand, and the client asks again. QEMU begins with room for 32.
    RegionInfo(RegionQuery, u64, Option<Area>),
    /// To DEVICE_GET_IRQ_INFO: the type that was asked for, and how many such interrupts there are, each signalled by an eventfd.
    IrqInfo(u32, u32),
    /// To REGION_READ: which bytes were asked for, and these bytes.
    Bytes(Region, B),
    /// To REGION_WRITE: which bytes were written.
    Written(Region),
}

impl<'a> Reply<&'a [u8]> {
    /// Whether a reply with bytes has as many as its region says, and these are 4,096 at most; any other reply has none.
    pub fn has_its_bytes(&self) -> bool
        ensures { IsTrue result ↔ HasItsBytes (of_lent self.now) }
    {
        match self {
            Reply::Bytes(region, bytes) => bytes.len() == region.count as usize
                && region.count <= MOST_DATA,
            _ => true,
        }
    }

    /// Writes the reply to the message of this header into the front of a room of 4,128 bytes or more, and tells how many bytes it has. The
    /// rest of the room stays as it was.
    ///
    /// A reply with bytes has as many as its region says, which [`Reply::has_its_bytes`] tells.
    #[tactic(auto, unfolding(crate::specs::Replies::reply_bytes))]
    pub fn encode(&self, header: &Header, room: &mut [u8]) -> usize
        requires room { 4128 ≤ length room.old }
        requires bytes { HasItsBytes (of_lent self.now) }
        ensures bytes { room.new ≡ reply_bytes header.now (of_lent self.now) ++ drop result room.old }
        ensures count { result ≡ length (reply_bytes header.now (of_lent self.now)) }
        ensures most { result ≤ 4128 }
    {
        match self {
            Reply::Done => put(header, None, &[], &[], room),
            Reply::Failed(errno) => put(header, Some(*errno), &[], &[], room),
            Reply::Version(major, minor) => put(
                header,
                None,
                &version_bytes(*major, *minor),
                &CAPABILITIES,
                room,
            ),
            Reply::Unmapped(range) => put(header, None, &range_bytes(range), &[], room),
            Reply::Info(regions, irqs) => put(
                header,
                None,
                &info_bytes(*regions, *irqs),
                &[],
                room,
            ),
            Reply::RegionInfo(query, size, area) => put_region_info(
                header, query, *size, *area, room,
            ),
            Reply::IrqInfo(index, count) => put(
                header,
                None,
                &irq_info_bytes(*index, *count),
                &[],
                room,
            ),
            Reply::Bytes(region, bytes) => put(header, None, &region_bytes(region), bytes, room),
            Reply::Written(region) => put(header, None, &region_bytes(region), &[], room),
        }
    }
}

// A reply to DEVICE_GET_REGION_INFO, with the capability where the client has room for it.
fn put_region_info(
    header: &Header,
    query: &RegionQuery,
    size: u64,
    area: Option<Area>,
    room: &mut [u8],
) -> usize
    requires room { 4128 ≤ length room.old }
    ensures bytes { room.new ≡ laid_bytes header.now None (region_info_bytes query.now size area) (capability_bytes query.now area) ++ drop result room.old }
    ensures count { result ≡ 48 + length (capability_bytes query.now area) }
    ensures most { result ≤ 80 }
{
    let first = region_info_bytes(query, size, area);
    match area {
        Some(area) if query.argsz >= 64 => put(header, None, &first, &area_bytes(area), room),
        _ => put(header, None, &first, &[], room),
    }
}

// Writes a header, and bytes in two parts behind it.
fn put(header: &Header, error: Option<Errno>, first: &[u8], second: &[u8], room: &mut [u8]) -> usize
    requires few { 16 + length first.now + length second.now ≤ 4128 }
    requires room { 4128 ≤ length room.old }
    ensures bytes { room.new ≡ laid_bytes header.now error first.now second.now ++ drop result room.old }
    ensures count { result ≡ 16 + length first.now + length second.now }
{
    let size = 16 + first.len() + second.len();
    let head = head_bytes(header, size as u32, error);
    lay(room, 0, &head);
    lay(room, 16, first);
    lay(room, 16 + first.len(), second);
    size
}

// Lays bytes into a room from a place on.
fn lay(room: &mut [u8], at: usize, bytes: &[u8])
    requires { at + length bytes.now ≤ length room.old }
    ensures { room.new ≡ take at room.old ++ (bytes.now ++ drop (at + length bytes.now) room.old) }
{
    room[at..at + bytes.len()].copy_from_slice(bytes);
}

// The header of a reply.
#[tactic(auto, unfolding(crate::specs::Replies::head_bytes))]
fn head_bytes(header: &Header, size: u32, error: Option<Errno>) -> [u8; 16]
    ensures { result ≡ head_bytes header.now size error }
{
    let mut out = [0u8; 16];
    LittleEndian::write_u16(&mut out, header.id);
    LittleEndian::write_u16(&mut out[2..], header.command);
    LittleEndian::write_u32(&mut out[4..], size);
    match error {
        None => LittleEndian::write_u32(&mut out[8..], 1),
        Some(errno) => {
            LittleEndian::write_u32(&mut out[8..], 33);
            LittleEndian::write_u32(&mut out[12..], errno.number());
        }
    }
    out
}

// Major and minor.
#[tactic(auto, unfolding(crate::specs::Replies::version_bytes))]
fn version_bytes(major: u16, minor: u16) -> [u8; 4]
    ensures { result ≡ version_bytes major minor }
{
    let mut out = [0u8; 4];
    LittleEndian::write_u16(&mut out, major);
    LittleEndian::write_u16(&mut out[2..], minor);
    out
}

// argsz, flags, address, size.
#[tactic(auto, unfolding(crate::specs::Replies::range_bytes))]
fn range_bytes(range: &Range) -> [u8; 24]
    ensures { result ≡ range_bytes range.now }
{
    let mut out = [0u8; 24];
    LittleEndian::write_u32(&mut out, 24);
    LittleEndian::write_u64(&mut out[8..], range.address);
    LittleEndian::write_u64(&mut out[16..], range.size);
    out
}

// argsz, flags, how many regions, how many types of interrupts.
#[tactic(auto, unfolding(crate::specs::Replies::info_bytes))]
fn info_bytes(regions: u32, irqs: u32) -> [u8; 16]
    ensures { result ≡ info_bytes regions irqs }
{
    let mut out = [0u8; 16];
    LittleEndian::write_u32(&mut out, 16);
    LittleEndian::write_u32(&mut out[4..], 3);
    LittleEndian::write_u32(&mut out[8..], regions);
    LittleEndian::write_u32(&mut out[12..], irqs);
    out
}

// argsz, flags, index, cap_offset, size, offset.
#[tactic(auto, unfolding(crate::specs::Replies::region_info_bytes))]
fn region_info_bytes(query: &RegionQuery, size: u64, area: Option<Area>) -> [u8; 32]
    ensures { result ≡ region_info_bytes query.now size area }
{
    let mut out = [0u8; 32];
    LittleEndian::write_u32(&mut out, needed(area));
    LittleEndian::write_u32(&mut out[4..], region_flags(size, area));
    LittleEndian::write_u32(&mut out[8..], query.index);
    LittleEndian::write_u32(&mut out[12..], capability_at(area));
    LittleEndian::write_u64(&mut out[16..], size);
    out
}

// How many bytes the whole answer has.
fn needed(area: Option<Area>) -> u32
    ensures { result ≡ needed area }
{
    match area {
        None => 32,
        Some(_) => 64,
    }
}

// What can be done with a region.
fn region_flags(size: u64, area: Option<Area>) -> u32
    ensures { result ≡ region_flags size area }
{
    match area {
        None => if size == 0 { 0 } else { 3 },
        Some(_) => 15,
    }
}

// Where the capability stands.
fn capability_at(area: Option<Area>) -> u32
    ensures { result ≡ capability_at area }
{
    match area {
        None => 0,
        Some(_) => 32,
    }
}

// id, version, next, how many areas, reserved; offset and size of the area.
#[tactic(auto, unfolding(crate::specs::Replies::area_bytes))]
fn area_bytes(area: Area) -> [u8; 32]
    ensures { result ≡ area_bytes area }
{
    let mut out = [0u8; 32];
    LittleEndian::write_u16(&mut out, 1);
    LittleEndian::write_u16(&mut out[2..], 1);
    LittleEndian::write_u32(&mut out[8..], 1);
    LittleEndian::write_u64(&mut out[16..], area.offset);
    LittleEndian::write_u64(&mut out[24..], area.size);
    out
}

// argsz, flags, index, count.
#[tactic(auto, unfolding(crate::specs::Replies::irq_info_bytes))]
fn irq_info_bytes(index: u32, count: u32) -> [u8; 16]
    ensures { result ≡ irq_info_bytes index count }
{
    let mut out = [0u8; 16];
    LittleEndian::write_u32(&mut out, 16);
    if count != 0 {
        LittleEndian::write_u32(&mut out[4..], 9);
    }
    LittleEndian::write_u32(&mut out[8..], index);
    LittleEndian::write_u32(&mut out[12..], count);
    out
}

// offset, region, count.
#[tactic(auto, unfolding(crate::specs::Replies::region_bytes))]
fn region_bytes(region: &Region) -> [u8; 16]
    ensures { result ≡ region_bytes region.now }
{
    let mut out = [0u8; 16];
    LittleEndian::write_u64(&mut out, region.offset);
    LittleEndian::write_u32(&mut out[8..], region.index);
    LittleEndian::write_u32(&mut out[12..], region.count);
    out
}
