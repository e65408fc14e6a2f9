//! What a client asks, read from the bytes behind the header.
ghost use Rattle.std.specs.Prelude.{◌≡◌, ◌≤◌, ℕ, length, Ok, Err, IfOk};
ghost use Rattle.vfio_user.specs.Requests.{request_of, has_fields, version_of, access_of, needs_file_of, map_of, unmap_of, info_of, region_info_of, irq_info_of, carried_of, action_of, set_irqs_of, region_of, read_of, write_of, lent, pair_lent, of_lent, IsWhole};

use crate::MOST_DATA;
use crate::errno::Errno;
use crate::fields::{u16_of, u32_of, u64_of};

/// What a device may do with a range of guest addresses.
#[derive(Clone, Copy, Debug, PartialEq, Eq)]
pub enum Access {
    /// Read it.
    ReadOnly,
    /// Write it.
    WriteOnly,
    /// Both.
    ReadWrite,
}

/// Guest addresses, as a device uses them for DMA.
#[derive(Clone, Copy, Debug, PartialEq, Eq)]
pub struct Range {
    /// The first one.
    pub address: u64,
    /// How many there are. Nothing says that they end below 2^64.
    pub size: u64,
}

/// Guest addresses that get memory (VFIO_USER_DMA_MAP).
#[derive(Clone, Copy, Debug, PartialEq, Eq)]
pub struct Mapping {
    /// What a device may do with it.
    pub access: Access,
    /// Whether a file has to come with the message: without one the request is refused by `EINVAL`. Where this is not set and no file
    /// came, the memory could be reached by DMA_READ and DMA_WRITE alone.
    pub needs_file: bool,
    /// How many bytes of the file stand in front of the range's.
    pub offset: u64,
    /// The addresses.
    pub range: Range,
}

/// Which region is asked about (VFIO_USER_DEVICE_GET_REGION_INFO).
#[derive(Clone, Copy, Debug, PartialEq, Eq)]
pub struct RegionQuery {
    /// How many bytes the client has room for behind the header of the reply, 32 at least.
    pub argsz: u32,
    /// The region, by its number in linux/vfio.h: 0 to 5 are BARs, 7 is the configuration space.
    pub index: u32,
}

/// What comes with a message about interrupts.
#[derive(Clone, Copy, Debug, PartialEq, Eq)]
pub enum Carried {
    /// Nothing: the action is done at once. With `start` and `count` of 0 it turns all interrupts of the type off.
    Nothing,
    /// Eventfds, the first for interrupt `start`. Where none came, the interrupts lose theirs.
    Eventfds,
}

/// What is done with interrupts, or what an eventfd tells.
#[derive(Clone, Copy, Debug, PartialEq, Eq)]
pub enum Action {
    /// They are masked.
    Mask,
    /// They are unmasked.
    Unmask,
    /// They are triggered.
    Trigger,
}

/// What interrupts are set up for (VFIO_USER_DEVICE_SET_IRQS).
#[derive(Clone, Copy, Debug, PartialEq, Eq)]
pub struct Irqs {
    /// What comes with the message.
    pub carried: Carried,
    /// What it is for.
    pub action: Action,
    /// The type of interrupts, by its number in linux/vfio.h: 2 is MSI-X.
    pub index: u32,
    /// The first one.
    pub start: u32,
    /// How many.
    pub count: u32,
}

/// Bytes of a region (VFIO_USER_REGION_READ and VFIO_USER_REGION_WRITE).
#[derive(Clone, Copy, Debug, PartialEq, Eq)]
pub struct Region {
    /// How many bytes of the region stand in front of them.
    pub offset: u64,
    /// The region, as in [`RegionQuery`].
    pub index: u32,
    /// How many bytes, 4,096 at most.
    pub count: u32,
}

/// What is asked. `B` is the form of the bytes that a write has: `&[u8]`, as they stand in the message.
#[derive(Clone, Copy, Debug, PartialEq, Eq)]
pub enum Request<B> {
    /// VERSION: which major and minor version the client proposes.
    Version(u16, u16),
    /// DMA_MAP: a device may use these guest addresses from now on.
    Map(Mapping),
    /// DMA_UNMAP: it may no longer.
    Unmap(Range),
    /// DEVICE_GET_INFO: what the device has.
    Info,
    /// DEVICE_GET_REGION_INFO: what a region has.
    RegionInfo(RegionQuery),
    /// DEVICE_GET_IRQ_INFO: what interrupts of this type there are.
    IrqInfo(u32),
    /// DEVICE_SET_IRQS: where interrupts go to.
    SetIrqs(Irqs),
    /// REGION_READ: bytes of a region are to be read.
    Read(Region),
    /// REGION_WRITE: these bytes are to be written to a region; they are `count` many.
    Write(Region, B),
    /// DEVICE_RESET: the device is to be reset.
    Reset,
}

impl<'a> Request<&'a [u8]> {
    /// Reads the request of a command, of which these are the bytes behind the header, all of them and no more.
    ///
    /// A command that is not offered is `Errno::NotSupported`, whatever its bytes. The table at the head of this crate says which bytes
    /// are refused, and by which error.
    #[tactic(auto, unfolding(crate::specs::Requests::request_of))]
    pub fn decode(command: u16, body: &'a [u8]) -> Result<Request<&'a [u8]>, Errno>
        ensures request { lent result ≡ request_of command body.now }
        ensures whole { IfOk result (λ r. IsWhole (of_lent r)) }
    {
        match command {
            1 => version_of(body),
            2 => map_of(body),
            3 => unmap_of(body),
            4 => info_of(body),
            5 => region_info_of(body),
            7 => irq_info_of(body),
            8 => set_irqs_of(body),
            9 => read_of(body),
            10 => write_of(body),
            13 => Ok(Request::Reset),
            _ => Err(Errno::NotSupported),
        }
    }
}

// Whether `fields` bytes are there, and argsz, the first four, says that they are.
#[tactic(auto, unfolding(crate::specs::Requests::has_fields))]
fn has_fields(fields: usize, body: &[u8]) -> bool
    requires { 4 ≤ fields }
    ensures { result ≡ has_fields fields body.now }
{
    if body.len() < fields {
        return false;
    }
    let (argsz, _) = u32_of(body);
    fields <= argsz as usize
}

#[tactic(auto, unfolding(crate::specs::Requests::version_of))]
fn version_of<'a>(body: &'a [u8]) -> Result<Request<&'a [u8]>, Errno>
    ensures request { lent result ≡ version_of body.now }
    ensures whole { IfOk result (λ r. IsWhole (of_lent r)) }
{
    if body.len() < 4 {
        return Err(Errno::Invalid);
    }
    let (major, rest) = u16_of(body);
    let (minor, _) = u16_of(rest);
    Ok(Request::Version(major, minor))
}

// Bits 1:0 of the flags of DMA_MAP.
#[tactic(auto, unfolding(crate::specs::Requests::access_of))]
fn access_of(bits: u32) -> Result<Access, Errno>
    ensures { result ≡ access_of bits }
{
    match bits {
        1 => Ok(Access::ReadOnly),
        2 => Ok(Access::WriteOnly),
        3 => Ok(Access::ReadWrite),
        _ => Err(Errno::Invalid),
    }
}

// Bits 31:2 of the flags of DMA_MAP.
#[tactic(auto, unfolding(crate::specs::Requests::needs_file_of))]
fn needs_file_of(bits: u32) -> Result<bool, Errno>
    ensures { result ≡ needs_file_of bits }
{
    match bits {
        0 => Ok(false),
        1 => Ok(true),
        2 | 3 => Err(Errno::NotSupported),
        _ => Err(Errno::Invalid),
    }
}

#[tactic(auto, unfolding(crate::specs::Requests::map_of, crate::specs::Requests::has_fields))]
fn map_of<'a>(body: &'a [u8]) -> Result<Request<&'a [u8]>, Errno>
    ensures request { lent result ≡ map_of body.now }
    ensures whole { IfOk result (λ r. IsWhole (of_lent r)) }
{
    if !has_fields(32, body) {
        return Err(Errno::Invalid);
    }
    let (_, rest) = u32_of(body);
    let (flags, rest) = u32_of(rest);
    let (offset, rest) = u64_of(rest);
    let (address, rest) = u64_of(rest);
    let (size, _) = u64_of(rest);
    match access_of(flags % 4) {
        Err(errno) => Err(errno),
        Ok(access) => match needs_file_of(flags / 4) {
            Err(errno) => Err(errno),
            Ok(needs_file) => Ok(Request::Map(Mapping {
                access,
                needs_file,
                offset,
                range: Range { address, size },
            })),
        },
    }
}

#[tactic(auto, unfolding(crate::specs::Requests::unmap_of, crate::specs::Requests::has_fields))]
fn unmap_of<'a>(body: &'a [u8]) -> Result<Request<&'a [u8]>, Errno>
    ensures request { lent result ≡ unmap_of body.now }
    ensures whole { IfOk result (λ r. IsWhole (of_lent r)) }
{
    if !has_fields(24, body) {
        return Err(Errno::Invalid);
    }
    let (_, rest) = u32_of(body);
    let (flags, rest) = u32_of(rest);
    if flags != 0 {
        return Err(Errno::NotSupported);
    }
    let (address, rest) = u64_of(rest);
    let (size, _) = u64_of(rest);
    Ok(Request::Unmap(Range { address, size }))
}

#[tactic(auto, unfolding(crate::specs::Requests::info_of))]
fn info_of<'a>(body: &'a [u8]) -> Result<Request<&'a [u8]>, Errno>
    ensures request { lent result ≡ info_of body.now }
    ensures whole { IfOk result (λ r. IsWhole (of_lent r)) }
{
    if has_fields(16, body) {
        Ok(Request::Info)
    } else {
        Err(Errno::Invalid)
    }
}

#[tactic(auto, unfolding(crate::specs::Requests::region_info_of, crate::specs::Requests::has_fields))]
fn region_info_of<'a>(body: &'a [u8]) -> Result<Request<&'a [u8]>, Errno>
    ensures request { lent result ≡ region_info_of body.now }
    ensures whole { IfOk result (λ r. IsWhole (of_lent r)) }
{
    if !has_fields(32, body) {
        return Err(Errno::Invalid);
    }
    let (argsz, rest) = u32_of(body);
    let (_, rest) = u32_of(rest);
    let (index, _) = u32_of(rest);
    Ok(Request::RegionInfo(RegionQuery { argsz, index }))
}

#[tactic(auto, unfolding(crate::specs::Requests::irq_info_of, crate::specs::Requests::has_fields))]
fn irq_info_of<'a>(body: &'a [u8]) -> Result<Request<&'a [u8]>, Errno>
    ensures request { lent result ≡ irq_info_of body.now }
    ensures whole { IfOk result (λ r. IsWhole (of_lent r)) }
{
    if !has_fields(16, body) {
        return Err(Errno::Invalid);
    }
    let (_, rest) = u32_of(body);
    let (_, rest) = u32_of(rest);
    let (index, _) = u32_of(rest);
    Ok(Request::IrqInfo(index))
}

// Bits 2:0 of the flags of DEVICE_SET_IRQS.
#[tactic(auto, unfolding(crate::specs::Requests::carried_of))]
fn carried_of(bits: u32) -> Result<Carried, Errno>
    ensures { result ≡ carried_of bits }
{
    match bits {
        1 => Ok(Carried::Nothing),
        2 => Err(Errno::NotSupported),
        4 => Ok(Carried::Eventfds),
        _ => Err(Errno::Invalid),
    }
}

// Bits 31:3 of the flags of DEVICE_SET_IRQS.
#[tactic(auto, unfolding(crate::specs::Requests::action_of))]
fn action_of(bits: u32) -> Result<Action, Errno>
    ensures { result ≡ action_of bits }
{
    match bits {
        1 => Ok(Action::Mask),
        2 => Ok(Action::Unmask),
        4 => Ok(Action::Trigger),
        _ => Err(Errno::Invalid),
    }
}

#[tactic(auto, unfolding(crate::specs::Requests::set_irqs_of, crate::specs::Requests::has_fields))]
fn set_irqs_of<'a>(body: &'a [u8]) -> Result<Request<&'a [u8]>, Errno>
    ensures request { lent result ≡ set_irqs_of body.now }
    ensures whole { IfOk result (λ r. IsWhole (of_lent r)) }
{
    if !has_fields(20, body) {
        return Err(Errno::Invalid);
    }
    let (_, rest) = u32_of(body);
    let (flags, rest) = u32_of(rest);
    let (index, rest) = u32_of(rest);
    let (start, rest) = u32_of(rest);
    let (count, _) = u32_of(rest);
    match carried_of(flags % 8) {
        Err(errno) => Err(errno),
        Ok(carried) => match action_of(flags / 8) {
            Err(errno) => Err(errno),
            Ok(action) => Ok(Request::SetIrqs(Irqs {
                carried,
                action,
                index,
                start,
                count,
            })),
        },
    }
}

// Which bytes of a region are meant, and what stands behind that.
#[tactic(auto, unfolding(crate::specs::Requests::region_of))]
fn region_of<'a>(body: &'a [u8]) -> Result<(Region, &'a [u8]), Errno>
    ensures region { pair_lent result ≡ region_of body.now }
    ensures few { IfOk result (λ p. p.0.count ≤ 4096) }
{
    if body.len() < 16 {
        return Err(Errno::Invalid);
    }
    let (offset, rest) = u64_of(body);
    let (index, rest) = u32_of(rest);
    let (count, rest) = u32_of(rest);
    if count > MOST_DATA {
        return Err(Errno::Invalid);
    }
    Ok((
        Region {
            offset,
            index,
            count,
        },
        rest,
    ))
}

#[tactic(auto, unfolding(crate::specs::Requests::read_of))]
fn read_of<'a>(body: &'a [u8]) -> Result<Request<&'a [u8]>, Errno>
    ensures request { lent result ≡ read_of body.now }
    ensures whole { IfOk result (λ r. IsWhole (of_lent r)) }
{
    match region_of(body) {
        Ok((region, _)) => Ok(Request::Read(region)),
        Err(errno) => Err(errno),
    }
}

#[tactic(auto, unfolding(crate::specs::Requests::write_of))]
fn write_of<'a>(body: &'a [u8]) -> Result<Request<&'a [u8]>, Errno>
    ensures request { lent result ≡ write_of body.now }
    ensures whole { IfOk result (λ r. IsWhole (of_lent r)) }
{
    match region_of(body) {
        Ok((region, bytes)) => {
            if bytes.len() != region.count as usize {
                return Err(Errno::Invalid);
            }
            Ok(Request::Write(region, bytes))
        }
        Err(errno) => Err(errno),
    }
}
