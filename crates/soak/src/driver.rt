//! The driver of the physical function and the service, in one thread.
use crate::round::{Kind, Plan};
use addr_tables::registers::{MPSAR, RAH, RAL};
use device::{Request, Room};
use device_lock::{LockedDevice, Share, WhenFull};
use guest_memory::GuestMem;
use pool_filter::registers::{PFDTXGSWC, PFVFRE, PFVFTE, VMOLR};
use rand_pcg::Pcg32;
use rand_pcg::rand_core::Rng;
use std::sync::Wait;
use std::sync::ledger::Ledger;
use std::time::Clock;
use vf_unit::Queue;

/// A pool takes broadcasts and untagged frames: BAM and AUPE of VMOLR.
const ACCEPTS: u32 = 1 << 27 | 1 << 24;
/// All pools may receive and transmit, and frames go from one to another.
const SWITCHED: [(u32, u32); 5] = [
    (PFVFRE.first, u32::MAX),
    (PFVFRE.first + PFVFRE.stride, u32::MAX),
    (PFVFTE.first, u32::MAX),
    (PFVFTE.first + PFVFTE.stride, u32::MAX),
    (PFDTXGSWC, 1),
];

// Asks what the share may, and tells whether the call was kept.
fn ask<M: GuestMem, L: Ledger, R: Wait>(
    rt: &R,
    device: &LockedDevice<M, L>,
    share: &mut Share<L>,
    request: Request<'_>,
    room: &mut Room,
) -> bool {
    if !share.may(request) {
        return false;
    }
    device
        .act_request(rt, share, request, room, WhenFull::Refuse)
        .is_some()
}

/// Opens all functions and sets the filters up, by the service: pool p has the address 02:00:00:00:00:p.
pub fn set_up<M: GuestMem, L: Ledger, R: Wait>(
    rt: &R,
    device: &LockedDevice<M, L>,
    service: &mut Share<L>,
) {
    let mut room = Room::new();
    for (offset, value) in SWITCHED {
        ask(
            rt,
            device,
            service,
            Request::PfWrite(offset, value),
            &mut room,
        );
    }
    for pool in 0..64u8 {
        let entry = u32::from(pool);
        let writes = [
            (RAL.first + RAL.stride * entry, 2),
            (RAH.first + RAH.stride * entry, 1 << 31 | entry << 8),
            (
                MPSAR.first + MPSAR.stride * (2 * entry + entry / 32),
                1 << (entry % 32),
            ),
            (VMOLR.first + VMOLR.stride * entry, ACCEPTS),
        ];
        ask(rt, device, service, Request::Open(pool), &mut room);
        for (offset, value) in writes {
            ask(
                rt,
                device,
                service,
                Request::PfWrite(offset, value),
                &mut room,
            );
        }
    }
}

/// Changes what pools accept, and serves queues, until it is over; and folds the history where it is half full, or ends where it
/// is full and can't be folded. How often it was folded.
pub fn drive<M: GuestMem, L: Ledger, R: Wait + Clock>(
    rt: &R,
    device: &LockedDevice<M, L>,
    pf: &mut Share<L>,
    service: &mut Share<L>,
    plan: Plan,
) -> u64 {
    let is_folded = plan.kind == Kind::Fold;
    let mut chance = Pcg32::new(plan.seed, 64);
    let mut room = Room::new();
    let (mut turns, mut folds) = (0u64, 0u64);
    for _ in rt.forever() {
        if plan.until.is_over(rt, turns) {
            break;
        }
        turns = turns.wrapping_add(1);
        if is_folded && device.kept(rt) >= plan.cap / 2 && device.fold(rt).is_some() {
            folds = folds.wrapping_add(1);
        }
        let value = chance.next_u32();
        let pool = (value % 64) as u8;
        let accepts = if value >> 28 == 0 { 0 } else { ACCEPTS };
        let at = VMOLR.first + VMOLR.stride * u32::from(pool);
        let is_set = ask(rt, device, pf, Request::PfWrite(at, accepts), &mut room);
        let is_served = ask(
            rt,
            device,
            service,
            Request::Serve(pool, Queue::Q0),
            &mut room,
        );
        if !(is_folded || is_set && is_served) {
            break;
        }
    }
    folds
}
