//! Devices whose calls are kept, and replays of these calls.
ghost use Rattle.std.specs.Prelude.{◌≡◌, ◌↔◌, ◌&&◌, true, false, nat_eq, replicate, length, is_some, Some, None, IfOk, IfErr, if◌then◌else◌, []};
ghost use Rattle.device.specs.World.{fresh};
ghost use Rattle.vfdev_c.specs.Handle.{can_record, is_recorded, is_unrecorded, calls_in, live_in, replayed, IsSame, IsMadeLike};
ghost use Rattle.vfdev_c.specs.Recorded.{recorded};

use crate::handle::Vfdev;
use crate::handle_state::HandleState;
use crate::making::{HELD, MADE, can_make, memories};
use crate::on_held::on_held;
use crate::recorder::Recorder;
use device::Device;
use history::MOST_CALLS;
use std::alloc::Global;
use wire_frame::Fault;

/// What a replay answers where the other device answered each kept call as it was kept.
pub const SAME: u32 = 0;
/// What a replay answers where the other device answered a kept call otherwise.
pub const DIFFERENT: u32 = 1;
/// What a replay answers where no calls are kept of the first device, or there is none.
pub const NOT_RECORDED: u32 = 2;
/// What a replay answers where there is no other device, its calls are kept, or guests write its memories.
pub const NO_OTHER: u32 = 3;

/// Makes a device as [`vfdev_make`](crate::making::vfdev_make) does, whose calls are kept from the first on, `calls` at most,
/// 1 to 65,536: 0, or the number of a fault, or 11 where the handle leads to something.
#[unsafe(no_mangle)]
pub extern "C" fn vfdev_make_recorded(
    alloc: Global,
    handle: &mut Vfdev,
    functions: u32,
    size: u64,
    limit: u16,
    calls: u32,
) -> u32
    ensures made { handle.new.owner.held ≡ (if nat_eq result 0
        then Some (HandleState.Kept (recorded (fresh limit (replicate functions size)) [] calls))
        else handle.old.owner.held) }
    ensures taken { is_some handle.old.owner.held ≡ true → result ≡ 11 }
    ensures bad_make { is_some handle.old.owner.held ≡ false →
        can_record functions size limit calls ≡ false → result ≡ 10 }
    ensures no_memory { is_some handle.old.owner.held ≡ false →
        can_record functions size limit calls ≡ true → nat_eq result 0 ≡ false → result ≡ 9 }
{
    if handle.live {
        return HELD;
    }
    match boxed(alloc, functions, size, limit, calls) {
        Ok(state) => {
            handle.put(state);
            MADE
        }
        Err(fault) => u32::from(fault.number()),
    }
}

/// How many calls are kept, and 0 where none are.
#[unsafe(no_mangle)]
pub extern "C" fn vfdev_kept(alloc: Global, handle: &mut Vfdev) -> usize
    ensures kept { result ≡ length (calls_in handle.old.owner.held) }
    ensures unchanged { handle.new.owner.held ≡ handle.old.owner.held }
{
    on_held!(handle, alloc, 0, Kept recorder => recorder.kept(); Lending | Made | Lent | Card | Guests)
}

/// Gives another device, whose calls are not kept, the events of the kept calls in their order, and tells whether it answers
/// each as was kept: the reply with its bytes, and all messages. 0 where it does, and else 1; 2 where no calls are kept of the
/// first device, and 3 where there is no such other device, and then nothing changes.
#[unsafe(no_mangle)]
pub extern "C" fn vfdev_replay(alloc: Global, handle: &mut Vfdev, other: &mut Vfdev) -> u32
    ensures same { (result ≡ 0) ↔ IsSame handle.old.owner.held other.old.owner.held }
    // a device as it is made, of the same frame limit and sizes of memories, answers so
    ensures made_like { IsMadeLike handle.old.owner.held other.old.owner.held → result ≡ 0 }
    // and is then as the recorded one is
    ensures twin { IsMadeLike handle.old.owner.held other.old.owner.held →
        other.new.owner.held ≡ live_in handle.old.owner.held }
    ensures different { is_recorded handle.old.owner.held ≡ true →
        is_unrecorded other.old.owner.held ≡ true → nat_eq result 0 ≡ false → result ≡ 1 }
    ensures not_recorded { is_recorded handle.old.owner.held ≡ false → result ≡ 2 }
    ensures no_other { is_recorded handle.old.owner.held ≡ true →
        is_unrecorded other.old.owner.held ≡ false → result ≡ 3 }
    ensures unchanged { handle.new.owner.held ≡ handle.old.owner.held }
    ensures stepped { other.new.owner.held ≡ replayed handle.old.owner.held other.old.owner.held }
{
    on_held!(handle, alloc, NOT_RECORDED, Kept recorder => replay_on(alloc, recorder, other); Lending | Made | Lent | Card | Guests)
}

// The same, of calls that are kept.
fn replay_on(alloc: Global, recorder: &Recorder, other: &mut Vfdev) -> u32
    ensures same { (result ≡ 0) ↔ IsSame (Some (HandleState.Kept recorder.now)) other.old.owner.held }
    ensures made_like { IsMadeLike (Some (HandleState.Kept recorder.now)) other.old.owner.held →
        result ≡ 0 }
    ensures twin { IsMadeLike (Some (HandleState.Kept recorder.now)) other.old.owner.held →
        other.new.owner.held ≡ Some (HandleState.Made recorder.now.live) }
    ensures different { is_unrecorded other.old.owner.held ≡ true →
        nat_eq result 0 ≡ false → result ≡ 1 }
    ensures no_other { is_unrecorded other.old.owner.held ≡ false → result ≡ 3 }
    ensures stepped { other.new.owner.held
        ≡ replayed (Some (HandleState.Kept recorder.now)) other.old.owner.held }
{
    on_held!(other, alloc, NO_OTHER, Made running => said(recorder.replays(running)); Lending | Kept | Lent | Card | Guests)
}

// What a replay answers.
fn said(same: bool) -> u32
    ensures { result ≡ (if same then 0 else 1) }
{
    if same { SAME } else { DIFFERENT }
}

// A device whose calls are kept, in a box.
#[inline(never)]
#[tactic(auto, using(crate::proofs::HandleLemmas::makeable))]
fn boxed(
    alloc: Global,
    functions: u32,
    size: u64,
    limit: u16,
    calls: u32,
) -> Result<Box<HandleState>, Fault>
    ensures ok { IfOk result (λ b.
        b.value ≡ HandleState.Kept (recorded (fresh limit (replicate functions size)) [] calls)) }
    ensures bad_make { can_record functions size limit calls ≡ false → result ≡ Err Fault.BadMake }
    ensures no_memory { IfErr result (λ e.
        can_record functions size limit calls ≡ true → e ≡ Fault.NoMemory) }
{
    let cap = calls as usize;
    if !can_make(functions, size, limit) || cap < 1 || cap > MOST_CALLS {
        return Err(Fault::BadMake);
    }
    let memories = memories(alloc, functions, size)?;
    let device = Device::with_limit(alloc, memories, limit)?;
    let recorder = Recorder::new(alloc, device, cap)?;
    Ok(Box::new(alloc, HandleState::Kept(recorder))?)
}
