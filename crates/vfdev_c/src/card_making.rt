//! Cards are made and freed.
ghost use Rattle.std.specs.Prelude.{◌≡◌, true, false, nat_eq, length, is_some, Some, None, Err, IfErr, IfOk};
ghost use Rattle.vfdev_c.specs.CardCalls.{LeadsTo, of_card};
ghost use Rattle.vfdev_c.specs.Cards.{IsMadeCard, can_make_card};

use crate::card_held::CardHeld;
use crate::handle::Vfdev;
use crate::handle_state::HandleState;
use crate::making::{HELD, MADE};
use crate::on_card::on_card;
use std::alloc::Global;
use wire_frame::Fault;

/// Makes a card of so many vacant functions, with the offloads of these flags, where the handle leads to nothing.
#[unsafe(no_mangle)]
pub extern "C" fn vfdev_card_make(
    alloc: Global,
    handle: &mut Vfdev,
    functions: u32,
    ids: &[u16],
    default_function: u8,
    limit: u16,
    offloads: u32,
) -> u32
    ensures made { nat_eq result 0 ≡ true
        → LeadsTo (IsMadeCard functions ids.now default_function limit offloads) handle.new.owner.held }
    ensures refused { nat_eq result 0 ≡ false → handle.new.owner.held ≡ handle.old.owner.held }
    ensures taken { is_some handle.old.owner.held ≡ true → result ≡ 11 }
    ensures bad_make { is_some handle.old.owner.held ≡ false
        → can_make_card functions ids.now default_function limit offloads ≡ false → result ≡ 10 }
    ensures no_memory { is_some handle.old.owner.held ≡ false
        → can_make_card functions ids.now default_function limit offloads ≡ true → nat_eq result 0 ≡ false
        → result ≡ 9 }
{
    if handle.live {
        return HELD;
    }
    match boxed(alloc, functions, ids, default_function, limit, offloads) {
        Ok(state) => {
            handle.put(state);
            MADE
        }
        Err(fault) => u32::from(fault.number()),
    }
}

/// Frees what the handle leads to, where it leads to anything.
#[unsafe(no_mangle)]
pub extern "C" fn vfdev_card_free(alloc: Global, handle: &mut Vfdev)
    ensures { handle.new.owner.held ≡ None }
{
    let _held = handle.take(alloc);
}

/// How many functions the card has.
#[unsafe(no_mangle)]
pub extern "C" fn vfdev_card_functions(alloc: Global, handle: &mut Vfdev) -> u32
    ensures handle { handle.new.owner.held ≡ handle.old.owner.held }
    ensures count { result ≡ of_card handle.old.owner.held 0 (λ c. length c.card.hosted.device.world.functions) }
{
    on_card!(handle, alloc, 0, held => held.card.functions() as u32)
}

// A card in a box.
#[inline(never)]
fn boxed(
    alloc: Global,
    functions: u32,
    ids: &[u16],
    default_function: u8,
    limit: u16,
    offloads: u32,
) -> Result<Box<HandleState>, Fault>
    ensures ok { IfOk result (λ b. LeadsTo (IsMadeCard functions ids.now default_function limit offloads) (Some b.value)) }
    ensures bad_make { can_make_card functions ids.now default_function limit offloads ≡ false → result ≡ Err Fault.BadMake }
    ensures no_memory { IfErr result
        (λ e. can_make_card functions ids.now default_function limit offloads ≡ true → e ≡ Fault.NoMemory) }
{
    let held = CardHeld::new(alloc, functions, ids, default_function, limit, offloads)?;
    Ok(Box::new(alloc, HandleState::Card(held))?)
}
