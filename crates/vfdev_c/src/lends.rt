//! Devices over memories of the caller's.
ghost use Rattle.std.specs.Prelude.{◌≡◌, ◌&&◌, true, false, nat_eq, map, length, Some, None, Err, IfOk, IfErr, if◌then◌else◌};
ghost use Rattle.device.specs.World.{fresh, is_frame_limit, is_makeable};
ghost use Rattle.vfdev_c.specs.Handle.{can_lend, is_lent_twice, is_made, lent_in, made_over};
ghost use Rattle.vfdev_c.specs.LentWorld.{untouched};
ghost use Rattle.vfdev_c.specs.Spans.{none_lent, one_more};

use crate::block::Block;
use crate::handle::Vfdev;
use crate::handle_state::HandleState;
use crate::lending::{BlockSpan, LentBlocks, MOST_BLOCKS, memory_of};
use crate::lent_device::LentDevice;
use crate::making::{HELD, MADE};
use guest_memory::is_memory_size;
use mapped_memory::LiveMem;
use std::alloc::Global;
use wire_frame::{Fault, FrameLimit};

/// What a lender answers where the block overlaps one that was lent.
pub const OVERLAPS: u32 = 13;

/// Lends a block, which begins at the address, as the memory of the next function of a device, which [`vfdev_make_lent`] makes of
/// all that were lent: 0, or the number of a fault, 11 where the handle leads to a device already, or 13 where the block overlaps one
/// that was lent. Its guest may write it whenever it likes.
#[unsafe(no_mangle)]
pub extern "C" fn vfdev_lend_at(
    alloc: Global,
    handle: &mut Vfdev,
    block: Block,
    address: u64,
) -> u32
    ensures lent { handle.new.owner.held
        ≡ (if nat_eq result 0
        then Some (HandleState.Lending (one_more (lent_in handle.old.owner.held) address block.bytes))
        else handle.old.owner.held) }
    ensures taken { is_made handle.old.owner.held ≡ true → result ≡ 11 }
    ensures bad_make { is_made handle.old.owner.held ≡ false
        → can_lend handle.old.owner.held block.bytes ≡ false → result ≡ 10 }
    ensures overlapping { is_made handle.old.owner.held ≡ false
        → can_lend handle.old.owner.held block.bytes ≡ true
        → is_lent_twice handle.old.owner.held address block.bytes ≡ true → result ≡ 13 }
    ensures no_memory { is_made handle.old.owner.held ≡ false
        → can_lend handle.old.owner.held block.bytes ≡ true
        → is_lent_twice handle.old.owner.held address block.bytes ≡ false
        → nat_eq result 0 ≡ false → result ≡ 9 }
{
    let cells = block.into_cells();
    let Some(mut state) = handle.take(alloc) else {
        return lend_first(alloc, handle, cells, address);
    };
    let answer = match &mut *state {
        HandleState::Lending(blocks) => lend_next(alloc, blocks, cells, address),
        HandleState::Made(_)
        | HandleState::Kept(_)
        | HandleState::Lent(_)
        | HandleState::Card(_)
        | HandleState::Guests(_) => HELD,
    };
    handle.put(state);
    answer
}

// Lends the first block.
fn lend_first(alloc: Global, handle: &mut Vfdev, cells: &'static mut [u8], address: u64) -> u32
    requires { handle.old.owner.held ≡ None }
    ensures lent { handle.new.owner.held
        ≡ (if nat_eq result 0 then Some (HandleState.Lending (one_more none_lent address cells.old)) else None) }
    ensures bad_make { can_lend None cells.old ≡ false → result ≡ 10 }
    ensures no_memory { can_lend None cells.old ≡ true → nat_eq result 0 ≡ false → result ≡ 9 }
{
    match lending(alloc, cells, address) {
        Ok(state) => {
            handle.put(state);
            MADE
        }
        Err(fault) => u32::from(fault.number()),
    }
}

// One block that is lent, in a box.
fn lending(alloc: Global, cells: &'static mut [u8], address: u64) -> Result<Box<HandleState>, Fault>
    ensures ok { IfOk result
        (λ b. b.value ≡ HandleState.Lending (one_more none_lent address cells.old)) }
    ensures bad_make { can_lend None cells.old ≡ false → result ≡ Err Fault.BadMake }
    ensures no_memory { IfErr result (λ e. can_lend None cells.old ≡ true → e ≡ Fault.NoMemory) }
{
    let memory = memory_of(alloc, cells)?;
    let mut blocks = LentBlocks::new(alloc)?;
    blocks.push(memory, address);
    Ok(Box::new(alloc, HandleState::Lending(blocks))?)
}

// Lends one more block.
fn lend_next(alloc: Global, blocks: &mut LentBlocks, cells: &'static mut [u8], address: u64) -> u32
    ensures lent { blocks.new
        ≡ (if nat_eq result 0 then one_more blocks.old address cells.old else blocks.old) }
    ensures bad_make { can_lend (Some (HandleState.Lending blocks.old)) cells.old ≡ false → result ≡ 10 }
    ensures overlapping { can_lend (Some (HandleState.Lending blocks.old)) cells.old ≡ true
        → is_lent_twice (Some (HandleState.Lending blocks.old)) address cells.old ≡ true → result ≡ 13 }
    ensures no_memory { can_lend (Some (HandleState.Lending blocks.old)) cells.old ≡ true
        → is_lent_twice (Some (HandleState.Lending blocks.old)) address cells.old ≡ false
        → nat_eq result 0 ≡ false → result ≡ 9 }
{
    if !is_memory_size(cells.len() as u64) || blocks.len() >= MOST_BLOCKS {
        return u32::from(Fault::BadMake.number());
    }
    let span = BlockSpan {
        address,
        len: cells.len() as u64,
    };
    if blocks.overlaps(span) {
        return OVERLAPS;
    }
    match memory_of(alloc, cells) {
        Ok(memory) => {
            blocks.push(memory, address);
            MADE
        }
        Err(fault) => u32::from(fault.number()),
    }
}

/// Makes a device of closed functions over the blocks that were lent, in their order: 0, or the number of a fault, or 11
/// where the handle leads to a device already. Where the limit is one and the device is not made, the blocks are the
/// caller's again.
#[unsafe(no_mangle)]
#[tactic(auto, using(crate::proofs::HandleLemmas::none_makeable))]
pub extern "C" fn vfdev_make_lent(alloc: Global, handle: &mut Vfdev, limit: u16) -> u32
    ensures made { nat_eq result 0 ≡ true
        → handle.new.owner.held ≡ made_over limit (lent_in handle.old.owner.held).blocks }
    ensures taken { is_made handle.old.owner.held ≡ true → result ≡ 11 }
    ensures bad_make { is_made handle.old.owner.held ≡ false
        → (is_frame_limit limit && is_makeable (map length (lent_in handle.old.owner.held).blocks)) ≡ false
        → result ≡ 10 }
    ensures no_memory { is_made handle.old.owner.held ≡ false
        → (is_frame_limit limit && is_makeable (map length (lent_in handle.old.owner.held).blocks)) ≡ true
        → nat_eq result 0 ≡ false → result ≡ 9 }
    ensures refused { is_made handle.old.owner.held ≡ true
        → handle.new.owner.held ≡ handle.old.owner.held }
    ensures bad_limit { is_frame_limit limit ≡ false
        → handle.new.owner.held ≡ handle.old.owner.held }
    ensures given_back { is_made handle.old.owner.held ≡ false → is_frame_limit limit ≡ true
        → nat_eq result 0 ≡ false → handle.new.owner.held ≡ None }
{
    let Some(state) = handle.take(alloc) else {
        return u32::from(Fault::BadMake.number());
    };
    if matches!(
        &*state,
        HandleState::Made(_)
            | HandleState::Kept(_)
            | HandleState::Lent(_)
            | HandleState::Card(_)
            | HandleState::Guests(_)
    ) {
        handle.put(state);
        return HELD;
    }
    if FrameLimit::new(limit).is_none() {
        handle.put(state);
        return u32::from(Fault::BadMake.number());
    }
    let blocks = match Box::into_inner(state) {
        HandleState::Lending(blocks) => blocks,
        HandleState::Made(_)
        | HandleState::Kept(_)
        | HandleState::Lent(_)
        | HandleState::Card(_)
        | HandleState::Guests(_) => unreachable!(),
    };
    match boxed_over(alloc, blocks.into_memories(), limit) {
        Ok(state) => {
            handle.put(state);
            MADE
        }
        Err(fault) => u32::from(fault.number()),
    }
}

// A device over these memories, in a box.
#[inline(never)]
fn boxed_over(
    alloc: Global,
    memories: Vec<LiveMem<'static>>,
    limit: u16,
) -> Result<Box<HandleState>, Fault>
    ensures ok { IfOk result
        (λ b. b.value ≡ HandleState.Lent
        (untouched (fresh limit (map (λ m. length m.seen) memories.entry.items))
        (map (λ m. m.accesses) memories.entry.items))) }
    ensures bad_make { (is_frame_limit limit && is_makeable (map (λ m. length m.seen) memories.entry.items)) ≡ false
        → result ≡ Err Fault.BadMake }
    ensures no_memory { IfErr result
        (λ e.
        (is_frame_limit limit && is_makeable (map (λ m. length m.seen) memories.entry.items))
        ≡ true → e ≡ Fault.NoMemory) }
{
    let device = LentDevice::new(alloc, memories, limit)?;
    Ok(Box::new(alloc, HandleState::Lent(device))?)
}
