//! A card that a handle leads to.
ghost use Rattle.std.specs.Prelude.{◌≡◌, ◌≤◌, true, false, [], length, replicate, Err, IfErr, IfOk};
ghost use Rattle.hosted.specs.Hosted.{host_of_ids};
ghost use Rattle.card.specs.Card.{IsMade};
ghost use Rattle.spare_memory.specs.Spares.{unmapped};
ghost use Rattle.vfdev_c.specs.Cards.{IsMadeCard, are_ids, can_make_card, function_at, is_function};

use card::Card;
use device::Room;
use live_memory::Shared;
use live_run::Frames;
use mapped_memory::LiveMem;
use offload::Offloads;
use spare_memory::Spares;
use std::alloc::Global;
use std::marker::Model;
use wire_frame::{Fault, FrameLimit, PoolId, Vid};

/// How many VLAN ids there are at most.
const MOST: usize = 64;

/// The number that stands for no function.
pub const NOBODY: u8 = 255;

/// How many frames may leave in one call: as many as the descriptors that it takes at most.
pub(crate) const MOST_FRAMES: usize = 256;

/// How many bytes they may have together. With less room for one more than the longest frame has, no descriptor is taken.
pub(crate) const FRAME_BYTES: usize = 262_144;

/// A card over memories of guests, with spare memories for those that come, and room for frames that leave.
#[derive(Drop)]
pub struct CardHeld {
    pub(crate) card: Card<LiveMem<'static>, Shared>,
    pub(crate) spares: Spares<'static>,
    pub(crate) frames: Frames,
    pub(crate) room: Room,
}

impl Model for CardHeld {
    ghost use Rattle.vfdev_c.specs.Cards.{HeldCard};

    ghost Value = { HeldCard };

    ghost view = { λ c. record { card = c.card; spares = c.spares; frames = c.frames } };
}

impl CardHeld {
    /// A card of so many vacant functions, with the offloads of these flags. [`Fault::BadMake`] comes exactly where a number is outside its limits; [`Fault::NoMemory`] only
    /// where the host refused the room.
    pub fn new(
        alloc: Global,
        functions: u32,
        ids: &[u16],
        default_function: u8,
        limit: u16,
        offloads: u32,
    ) -> Result<CardHeld, Fault>
        ensures ok { IfOk result (IsMadeCard functions ids.now default_function limit offloads) }
        ensures bad_make { can_make_card functions ids.now default_function limit offloads ≡ false → result ≡ Err Fault.BadMake }
        ensures no_memory { IfErr result
            (λ e. can_make_card functions ids.now default_function limit offloads ≡ true → e ≡ Fault.NoMemory) }
    {
        let Some(limit) = FrameLimit::new(limit) else {
            return Err(Fault::BadMake);
        };
        let Some(offloads) = Offloads::from_bits(offloads) else {
            return Err(Fault::BadMake);
        };
        if functions < 1 || functions > 64 || !are_ids(ids) || !is_function(default_function) {
            return Err(Fault::BadMake);
        }
        let ids = ids_of(alloc, ids)?;
        let card = vacant(alloc, functions, &ids, default_function, limit, offloads)?;
        let spares = Spares::new(alloc)?;
        let frames = Frames::new(alloc, MOST_FRAMES, FRAME_BYTES)?;
        Ok(CardHeld {
            card,
            spares,
            frames,
            room: Room::new(),
        })
    }
}

// A card of vacant functions.
fn vacant(
    alloc: Global,
    functions: u32,
    ids: &[Vid],
    default_function: u8,
    limit: FrameLimit,
    offloads: Offloads,
) -> Result<Card<LiveMem<'static>, Shared>, Fault>
    requires least { 1 ≤ functions }
    requires most { functions ≤ 64 }
    requires ids { length ids.now ≤ 64 }
    ensures made { IfOk result (IsMade (host_of_ids ids.now (function_at default_function) limit) offloads
        (replicate functions 0)) }
    ensures untouched { IfOk result (λ c. c.hosted.device.accesses ≡ replicate functions []) }
    ensures no_memory { IfErr result (λ e. e ≡ Fault.NoMemory) }
{
    let memories = vacancies(alloc, functions)?;
    // the number that stands for none is no pool's
    let default_pool = PoolId::new(default_function);
    Card::for_guests(alloc, memories, ids, default_pool, limit, offloads)
}

// Whether these are ids of VLANs, 0 to 4095, and at most 64.
fn are_ids(numbers: &[u16]) -> bool
    ensures { result ≡ are_ids numbers.now }
{
    if numbers.len() > MOST {
        return false;
    }
    for number in numbers {
        if *number >= 4096 {
            return false;
        }
    }
    true
}

// Whether it is the number of a function, or of none.
fn is_function(number: u8) -> bool
    ensures { result ≡ is_function number }
{
    number < 64 || number == NOBODY
}

// The ids of these numbers.
fn ids_of(alloc: Global, numbers: &[u16]) -> Result<Vec<Vid>, Fault>
    requires { are_ids numbers.now ≡ true }
    ensures ok { IfOk result (λ ids. ids.items ≡ numbers.now) }
    ensures no_memory { IfErr result (λ e. e ≡ Fault.NoMemory) }
{
    let mut ids = Vec::with_capacity(alloc, MOST)?;
    for number in numbers {
        ids.push(Vid::of_tag(*number))?;
    }
    Ok(ids)
}

// The memories of as many vacant functions.
pub(crate) fn vacancies(alloc: Global, functions: u32) -> Result<Vec<LiveMem<'static>>, Fault>
    ensures ok { IfOk result (λ memories. memories.items ≡ replicate functions (unmapped 0)) }
    ensures no_memory { IfErr result (λ e. e ≡ Fault.NoMemory) }
{
    let mut memories = Vec::new(alloc);
    for _ in 0..functions {
        let memory = LiveMem::for_guest(alloc, 0)?;
        memories.push(memory)?;
    }
    Ok(memories)
}
