//! The service of a function's transmit queue, by the function's own settings alone.
ghost use Rattle.std.specs.Prelude.{◌≡◌, ◌++◌, ℕ, List, Some, None, if◌then◌else◌};
ghost use Rattle.vf_unit.specs.Unit.{size_of, met_function, IsMet};
ghost use Rattle.device.specs.Act.{serve, serve_accesses};
ghost use Rattle.device.specs.Replies.{is_sent};
ghost use Rattle.device.specs.Outcome.{reply_of};

use crate::outcome::{Acted, Outcome};
use crate::room::Room;
use anti_spoof::passes_anti_spoof;
use guest_memory::GuestMem;
use live_memory::Dma;
use pool_filter::SenderRules;
use tx_desc::Progress;
use vf_unit::{Queue, VfUnit};
use wire_frame::{Fault, FrameBuf, FrameLimit};

/// Serves a queue of a function, by the function's own settings alone: takes the descriptor at the queue's head (82599
/// datasheet, transmit descriptors). A frame that is sent is left in `room`, up to `limit` bytes of it.
#[tactic(auto, using(vf_unit::proofs::Told::met_alone))]
pub fn serve_queue<R: SenderRules, M: GuestMem>(
    rules: &R,
    limit: FrameLimit,
    unit: &mut VfUnit<M>,
    queue: Queue,
    room: &mut Room,
) -> Acted
    ensures function { unit.new.function ≡ (serve limit (R.rules rules.now) unit.old.function queue).function }
    ensures reply { (cells : List ℕ)
        → reply_of cells result.outcome ≡ (serve limit (R.rules rules.now) unit.old.function queue).reply }
    ensures messages { result.vectors ≡ (serve limit (R.rules rules.now) unit.old.function queue).messages }
    ensures sent { (serve limit (R.rules rules.now) unit.old.function queue).sent
        ≡ (if is_sent result.outcome then Some room.new.frame else None) }
    ensures size { size_of unit.new.function ≡ size_of unit.old.function }
{
    serve_queue_live(rules, limit, unit, queue, &mut room.frame)
}

/// Serves a queue of a function, by the function's own settings alone: takes the descriptor at the queue's head (82599
/// datasheet, transmit descriptors). A frame that is sent is left in `frame`, up to `limit` bytes of it. Others may write
/// the memory meanwhile.
#[tactic(auto, unfolding(crate::specs::Act::serve), using(vf_unit::proofs::Told::told_nothing, vf_unit::proofs::Told::open_told))]
pub(crate) fn serve_queue_live<R: SenderRules, D: Dma<K>, K>(
    rules: &R,
    limit: FrameLimit,
    unit: &mut VfUnit<D, K>,
    queue: Queue,
    frame: &mut FrameBuf,
) -> Acted
    ensures function { unit.new.function ≡ (serve limit (R.rules rules.now)
        (met_function unit.old unit.new) queue).function }
    ensures reply { (cells : List ℕ)
        → reply_of cells result.outcome ≡ (serve limit (R.rules rules.now)
        (met_function unit.old unit.new) queue).reply }
    ensures messages { result.vectors ≡ (serve limit (R.rules rules.now)
        (met_function unit.old unit.new) queue).messages }
    ensures sent { (serve limit (R.rules rules.now)
        (met_function unit.old unit.new) queue).sent
        ≡ (if is_sent result.outcome then Some frame.new else None) }
    ensures size { size_of unit.new.function ≡ size_of unit.old.function }
    ensures listed { unit.new.accesses ≡ unit.old.accesses
        ++ serve_accesses limit (R.rules rules.now) (met_function unit.old unit.new) queue }
    ensures met { IsMet D.shared unit.old.function unit.old.accesses unit.new.accesses }
{
    if !rules.may_transmit() {
        return Acted::silent(if unit.is_open() {
            Outcome::Idle
        } else {
            Outcome::Refused(Fault::NotOpen)
        });
    }
    match unit.serve_live(queue, frame, rules.port_vlan(), limit) {
        None => Acted::silent(Outcome::Refused(Fault::NotOpen)),
        Some(service) => {
            let outcome = match service.outcome {
                Progress::Idle => Outcome::Idle,
                Progress::More => Outcome::More,
                Progress::Dropped => Outcome::Dropped,
                Progress::Faulted => Outcome::Faulted,
                Progress::Ended => {
                    if passes_anti_spoof(rules, frame) {
                        unit.sent();
                        Outcome::Sent
                    } else {
                        unit.refused();
                        Outcome::Dropped
                    }
                }
            };
            Acted {
                outcome,
                vectors: service.messages,
            }
        }
    }
}
