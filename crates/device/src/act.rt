//! What an event of its own does to one function by itself: a call for each kind of event, and [`act`], which takes any.
//!
//! Each refusal is decided here, but for a function that is not there. The first that fits of a function that is closed, one
//! that is open already, a bad offset, an access that is too long and one past the end of the memory is told.
ghost use Rattle.std.specs.Prelude.{◌≡◌, ◌+◌, ◌≤◌, ◌++◌, ℕ, length, nat_lt, true, false, IfNone, OnErr, if◌then◌else◌};
ghost use Rattle.vf_unit.specs.Unit.{size_of, is_open, has_range, met_function, IsMet};
ghost use Rattle.device.specs.declared.event.Event.{Event};
ghost use Rattle.device.specs.Act.{is_bad_offset, refusal, act, act_accesses};
ghost use Rattle.device.specs.Replies.{is_sent};
ghost use Rattle.device.specs.Outcome.{issued, reply_of, done_or_refused, value_or_refused, bytes_or_refused};
ghost use Rattle.device.specs.Request.{event_of};

use crate::bytes::{MOST_BYTES, MemSlice};
use crate::event::Request;
use crate::outcome::{Acted, Outcome};
use crate::read_count::ReadCount;
use crate::room::Room;
use guest_memory::GuestMem;
use irq_causes::Vectors;
use live_memory::Dma;
use vf_unit::VfUnit;
use wire_frame::Fault;

/// How many bytes the register space of a virtual function has.
pub const VF_SPACE: u32 = 0x4000;
/// How many bytes the register space of the physical function has.
pub const PF_SPACE: u32 = 0x2_0000;

/// Whether no register can stand at the offset, in a register space of that many bytes.
#[inline]
pub fn is_bad_offset(space: u32, offset: u32) -> bool
    ensures { result ≡ is_bad_offset space offset }
{
    !offset.is_multiple_of(4) || offset >= space
}

// Why an event is refused for this fault: the fault itself, where the function is open.
#[inline]
fn unless_closed<D: Dma<K>, K>(unit: &VfUnit<D, K>, fault: Fault) -> Fault
    ensures { result ≡ (if is_open unit.now.function then fault else Fault.NotOpen) }
{
    if unit.is_open() {
        fault
    } else {
        Fault::NotOpen
    }
}

// Opens a function.
#[tactic(auto, unfolding(crate::specs::Act::act, crate::specs::Act::refusal))]
pub(crate) fn open<D: Dma<K>, K>(unit: &mut VfUnit<D, K>) -> Result<(), Fault>
    ensures function { (p : ℕ) → unit.new.function ≡ (act unit.old.function (Event.Open p)).function }
    ensures reply { (p : ℕ) → (act unit.old.function (Event.Open p)).reply ≡ done_or_refused result }
    ensures silent { (p : ℕ) → (act unit.old.function (Event.Open p)).messages ≡ 0 }
    ensures listed { (p : ℕ)
        → unit.new.accesses ≡ unit.old.accesses ++ act_accesses unit.old.function (Event.Open p) }
    ensures size { size_of unit.new.function ≡ size_of unit.old.function }
{
    if unit.is_open() {
        return Err(Fault::AlreadyOpen);
    }
    unit.open();
    Ok(())
}

// Closes a function.
#[tactic(auto, unfolding(crate::specs::Act::act, crate::specs::Act::refusal))]
pub(crate) fn end<D: Dma<K>, K>(unit: &mut VfUnit<D, K>) -> Result<(), Fault>
    ensures function { (p : ℕ) → unit.new.function ≡ (act unit.old.function (Event.End p)).function }
    ensures reply { (p : ℕ) → (act unit.old.function (Event.End p)).reply ≡ done_or_refused result }
    ensures silent { (p : ℕ) → (act unit.old.function (Event.End p)).messages ≡ 0 }
    ensures accesses { unit.new.accesses ≡ unit.old.accesses }
    ensures size { size_of unit.new.function ≡ size_of unit.old.function }
{
    if !unit.is_open() {
        return Err(Fault::NotOpen);
    }
    unit.end();
    Ok(())
}

// Resets a function: a function-level reset (SR-IOV 1.1, section 2.2.2).
#[tactic(auto, unfolding(crate::specs::Act::act, crate::specs::Act::refusal))]
pub(crate) fn flr<D: Dma<K>, K>(unit: &mut VfUnit<D, K>) -> Result<(), Fault>
    ensures function { (p : ℕ) → unit.new.function ≡ (act unit.old.function (Event.Flr p)).function }
    ensures reply { (p : ℕ) → (act unit.old.function (Event.Flr p)).reply ≡ done_or_refused result }
    ensures silent { (p : ℕ) → (act unit.old.function (Event.Flr p)).messages ≡ 0 }
    ensures accesses { unit.new.accesses ≡ unit.old.accesses }
    ensures size { size_of unit.new.function ≡ size_of unit.old.function }
{
    if !unit.is_open() {
        return Err(Fault::NotOpen);
    }
    unit.reset();
    Ok(())
}

// Reads a register.
#[inline]
#[tactic(auto, unfolding(crate::specs::Act::act, crate::specs::Act::refusal, vf_unit::specs::Unit::read_of, vf_unit::specs::Unit::after_read_of))]
pub(crate) fn vf_read<D: Dma<K>, K>(unit: &mut VfUnit<D, K>, offset: u32) -> Result<u32, Fault>
    ensures function { (p : ℕ) → unit.new.function ≡ (act unit.old.function (Event.VfRead p offset)).function }
    ensures reply { (p : ℕ)
        → (act unit.old.function (Event.VfRead p offset)).reply ≡ value_or_refused result }
    ensures silent { (p : ℕ) → (act unit.old.function (Event.VfRead p offset)).messages ≡ 0 }
    ensures accesses { unit.new.accesses ≡ unit.old.accesses }
    ensures size { size_of unit.new.function ≡ size_of unit.old.function }
{
    if is_bad_offset(VF_SPACE, offset) {
        return Err(unless_closed(unit, Fault::BadOffset));
    }
    match unit.reg_read(offset) {
        Some(value) => Ok(value),
        None => Err(Fault::NotOpen),
    }
}

// Writes a register; the vectors whose messages this issues.
#[inline]
#[tactic(auto, unfolding(crate::specs::Act::act, crate::specs::Act::refusal))]
pub(crate) fn vf_write<D: Dma<K>, K>(
    unit: &mut VfUnit<D, K>,
    offset: u32,
    value: u32,
) -> Result<Vectors, Fault>
    ensures function { (p : ℕ) → unit.new.function ≡ (act unit.old.function (Event.VfWrite p offset value)).function }
    ensures reply { (p : ℕ)
        → (act unit.old.function (Event.VfWrite p offset value)).reply ≡ done_or_refused result }
    ensures messages { (p : ℕ)
        → (act unit.old.function (Event.VfWrite p offset value)).messages ≡ issued result }
    ensures accesses { unit.new.accesses ≡ unit.old.accesses }
    ensures size { size_of unit.new.function ≡ size_of unit.old.function }
{
    if is_bad_offset(VF_SPACE, offset) {
        return Err(unless_closed(unit, Fault::BadOffset));
    }
    match unit.reg_write(offset, value) {
        Some(vectors) => Ok(vectors),
        None => Err(Fault::NotOpen),
    }
}

// Why so many bytes of the memory from an address on are not read, if they are not.
#[inline]
#[tactic(auto, unfolding(crate::specs::Act::refusal))]
fn read_refusal<D: Dma<K>, K>(unit: &VfUnit<D, K>, at: u64, count: usize) -> Option<Fault>
    ensures refusal { (p : ℕ) → refusal unit.now.function (Event.MemRead p at count) ≡ result }
    ensures short { IfNone result (count ≤ 2048) }
    ensures inside { IfNone result (has_range unit.now.function at count ≡ true) }
{
    if !unit.is_open() {
        Some(Fault::NotOpen)
    } else if count > MOST_BYTES {
        Some(Fault::TooLong)
    } else if passes_end(unit.memory_size(), at, count as u64) {
        Some(Fault::BadRange)
    } else {
        None
    }
}

// Whether the bytes from an address on pass the end of a memory of that size.
#[inline]
fn passes_end(size: u64, at: u64, count: u64) -> bool
    ensures { result ≡ nat_lt size (at + count) }
{
    at > size || count > size - at
}

// Copies bytes of the memory into `out`.
#[inline]
#[tactic(auto, unfolding(crate::specs::Act::act))]
pub(crate) fn mem_read<M: GuestMem>(unit: &VfUnit<M>, at: u64, out: &mut [u8]) -> Result<(), Fault>
    ensures function { (p : ℕ)
        → (act unit.now.function (Event.MemRead p at (length out.old))).function ≡ unit.now.function }
    ensures reply { (p : ℕ)
        → (act unit.now.function (Event.MemRead p at (length out.old))).reply
        ≡ bytes_or_refused result out.new }
    ensures silent { (p : ℕ) → (act unit.now.function (Event.MemRead p at (length out.old))).messages ≡ 0 }
    ensures unchanged { OnErr result (out.new ≡ out.old) }
{
    match read_refusal(unit, at, out.len()) {
        Some(fault) => Err(fault),
        None => {
            unit.mem_read(at, out);
            Ok(())
        }
    }
}

// Copies bytes of the memory into `out`, where others may write it meanwhile.
#[inline]
#[tactic(auto, unfolding(crate::specs::Act::act, vf_unit::specs::Unit::told_of))]
pub(crate) fn mem_read_live<D: Dma<K>, K>(
    unit: &mut VfUnit<D, K>,
    at: u64,
    out: &mut [u8],
) -> Result<(), Fault>
    ensures function { (p : ℕ) → unit.new.function
        ≡ (act (met_function unit.old unit.new) (Event.MemRead p at (length out.old))).function }
    ensures reply { (p : ℕ) → (act (met_function unit.old unit.new)
        (Event.MemRead p at (length out.old))).reply ≡ bytes_or_refused result out.new }
    ensures silent { (p : ℕ) → (act (met_function unit.old unit.new)
        (Event.MemRead p at (length out.old))).messages ≡ 0 }
    ensures unchanged { OnErr result (out.new ≡ out.old) }
    ensures size { size_of unit.new.function ≡ size_of unit.old.function }
    ensures met { IsMet D.shared unit.old.function unit.old.accesses unit.new.accesses }
    ensures listed { (p : ℕ) → unit.new.accesses ≡ unit.old.accesses
        ++ act_accesses (met_function unit.old unit.new) (Event.MemRead p at (length out.old)) }
{
    match read_refusal(unit, at, out.len()) {
        Some(fault) => Err(fault),
        None => {
            unit.mem_load(at, out);
            Ok(())
        }
    }
}

// The same into the first cells, as many as the event asks for.
#[inline]
#[tactic(auto, unfolding(crate::specs::Act::act, crate::specs::Act::refusal))]
pub(crate) fn load<D: Dma<K>, K>(
    unit: &mut VfUnit<D, K>,
    at: u64,
    count: u16,
    cells: &mut [u8; MOST_BYTES],
) -> Outcome
    ensures function { (p : ℕ) → unit.new.function
        ≡ (act (met_function unit.old unit.new) (Event.MemRead p at count)).function }
    ensures reply { (p : ℕ) → (act (met_function unit.old unit.new)
        (Event.MemRead p at count)).reply ≡ reply_of cells.new result }
    ensures silent { (p : ℕ) → (act (met_function unit.old unit.new)
        (Event.MemRead p at count)).messages ≡ 0 }
    ensures unsent { is_sent result ≡ false }
    ensures size { size_of unit.new.function ≡ size_of unit.old.function }
    ensures met { IsMet D.shared unit.old.function unit.old.accesses unit.new.accesses }
    ensures listed { (p : ℕ) → unit.new.accesses ≡ unit.old.accesses
        ++ act_accesses (met_function unit.old unit.new) (Event.MemRead p at count) }
{
    let wanted = usize::from(count);
    if wanted > MOST_BYTES {
        return Outcome::Refused(unless_closed(unit, Fault::TooLong));
    }
    match mem_read_live(unit, at, &mut cells[..wanted]) {
        Ok(()) => Outcome::Bytes(ReadCount::new(count)),
        Err(fault) => Outcome::Refused(fault),
    }
}

// Writes bytes of the memory.
#[inline]
#[tactic(auto, unfolding(crate::specs::Act::act, crate::specs::Act::refusal, vf_unit::specs::Unit::memory_written))]
pub(crate) fn mem_write<D: Dma<K>, K>(
    unit: &mut VfUnit<D, K>,
    at: u64,
    written: MemSlice<'_>,
) -> Result<(), Fault>
    ensures function { (p : ℕ)
        → unit.new.function ≡ (act unit.old.function (Event.MemWrite p at written.entry.bytes.now)).function }
    ensures reply { (p : ℕ)
        → (act unit.old.function (Event.MemWrite p at written.entry.bytes.now)).reply
        ≡ done_or_refused result }
    ensures silent { (p : ℕ)
        → (act unit.old.function (Event.MemWrite p at written.entry.bytes.now)).messages ≡ 0 }
    ensures listed { (p : ℕ)
        → unit.new.accesses ≡ unit.old.accesses
        ++ act_accesses unit.old.function (Event.MemWrite p at written.entry.bytes.now) }
    ensures size { size_of unit.new.function ≡ size_of unit.old.function }
{
    if unit.mem_write(at, written.bytes()) {
        Ok(())
    } else {
        Err(unless_closed(unit, Fault::BadRange))
    }
}

/// What an event of its own, but for a service, does to a function. Any other event does nothing to it. Bytes that are read stand in the
/// room.
#[tactic(auto, unfolding(crate::specs::Act::act, crate::specs::Act::refusal), using(vf_unit::proofs::Told::met_alone))]
pub fn act<M: GuestMem>(unit: &mut VfUnit<M>, request: Request<'_>, room: &mut Room) -> Acted
    ensures function { unit.new.function ≡ (act unit.old.function (event_of request.entry)).function }
    ensures reply { reply_of room.new.bytes result.outcome
        ≡ (act unit.old.function (event_of request.entry)).reply }
    ensures messages { result.vectors ≡ (act unit.old.function (event_of request.entry)).messages }
    ensures size { size_of unit.new.function ≡ size_of unit.old.function }
{
    match request {
        Request::Open(_) => Acted::done_or_refused(open(unit)),
        Request::End(_) => Acted::done_or_refused(end(unit)),
        Request::Flr(_) => Acted::done_or_refused(flr(unit)),
        Request::VfRead(_, offset) => match vf_read(unit, offset) {
            Ok(value) => Acted::silent(Outcome::Value(value)),
            Err(fault) => Acted::silent(Outcome::Refused(fault)),
        },
        Request::VfWrite(_, offset, value) => match vf_write(unit, offset, value) {
            Ok(vectors) => Acted {
                outcome: Outcome::Done,
                vectors,
            },
            Err(fault) => Acted::silent(Outcome::Refused(fault)),
        },
        Request::MemRead(_, at, count) => Acted::silent(load(unit, at, count, &mut room.bytes)),
        Request::MemWrite(_, at, written) => Acted::done_or_refused(mem_write(unit, at, written)),
        _ => Acted::silent(if unit.is_open() {
            Outcome::Idle
        } else {
            Outcome::Refused(Fault::NotOpen)
        }),
    }
}
