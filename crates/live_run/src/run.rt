//! Runs of a device, of whatever memories.
ghost use Rattle.std.specs.Prelude.{◌≡◌, IfOk, IfErr, OnErr};
ghost use Rattle.device.specs.World.{step};
ghost use Rattle.device.specs.Accesses.{accesses_by};
ghost use Rattle.device.specs.Live.{told_world, AreMet, AreListed};
ghost use Rattle.live_run.specs.Live.{IsLiveRun};

use device::{Answer, Device, Event, Room};
use live_memory::Dma;
use std::alloc::Global;
use wire_frame::{Fault, PoolId};

/// Takes events in turn, and answers each, while guests may write the memories. [`Fault::NoMemory`] comes before the first event,
/// and leaves the device as it was.
///
/// To each virtual function the run is as if it were alone, given its own events, its own settings, the frames that its filters
/// accept, and what its own memory answered: also its memory is read and written as that lone function does, in the same order.
pub fn run_live<D: Dma<K>, K>(
    device: &mut Device<D, K>,
    alloc: Global,
    events: &[Event],
) -> Result<Vec<Answer>, Fault>
    ensures run { IfOk result (λ answers.
        IsLiveRun D.shared device.old events.now answers.items device.new) }
    ensures no_memory { IfErr result (λ e. e ≡ Fault.NoMemory) }
    ensures unchanged { OnErr result (device.new ≡ device.old) }
{
    let count = device.functions();
    prove!(count <= usize::from(PoolId::COUNT));
    let Ok(mut answers) = Vec::with_capacity(alloc, events.len()) else {
        return Err(Fault::NoMemory);
    };
    let mut room = Room::new();
    for event in events {
        let answer = take(device, event, &mut room);
        answers.push_reserved(answer);
    }
    Ok(answers)
}

// Takes one event, and answers it.
fn take<D: Dma<K>, K>(device: &mut Device<D, K>, event: &Event, room: &mut Room) -> Answer
    ensures world { device.new.world
        ≡ (step (told_world device.old.accesses device.new.accesses device.old.world) event.now).world }
    ensures answer { result
        ≡ (step (told_world device.old.accesses device.new.accesses device.old.world) event.now).answer }
    ensures met { AreMet D.shared device.old.accesses device.new.accesses device.old.world }
    ensures listed { AreListed (accesses_by
        (told_world device.old.accesses device.new.accesses device.old.world) event.now)
        device.old.accesses device.new.accesses }
{
    let response = device.take_live(event.as_request(), room);
    response.answer(room)
}
