//! The pools that are open, by the replies to the events so far.
ghost use Rattle.std.specs.Prelude.{◌≡◌, ℕ, List, length, IfOk};
ghost use Rattle.device.specs.Outcome.{reply_of};
ghost use Rattle.device.specs.Request.{event_of};
ghost use Rattle.workers.specs.Opens.{all_closed, opened, opened_by, pools_from, with_pool};

use crate::plan::Ports;
use device::{Outcome, Request};
use std::alloc::{AllocError, Global};
use wire_frame::PoolId;

/// No pool is open.
pub fn closed_pools() -> Ports
    ensures { result ≡ all_closed }
{
    [false; 64]
}

/// Notes which pools an event leaves open, by what came of it.
pub fn note(request: Request<'_>, outcome: Outcome, is_open: &mut Ports)
    requires { length is_open.old ≡ 64 }
    ensures open { (cells : List ℕ) →
        is_open.new ≡ opened (event_of request.entry) (reply_of cells outcome) is_open.old }
    ensures len { length is_open.new ≡ 64 }
{
    if matches!(outcome, Outcome::Done) {
        note_done(request, is_open);
    }
}

/// The same of an event that was done.
pub fn note_done(request: Request<'_>, is_open: &mut Ports)
    requires { length is_open.old ≡ 64 }
    ensures open { is_open.new ≡ opened_by (event_of request.entry) is_open.old }
    ensures len { length is_open.new ≡ 64 }
{
    match request {
        Request::Open(pool) => set(is_open, pool, true),
        Request::End(pool) => set(is_open, pool, false),
        Request::PfReset => *is_open = [false; 64],
        _ => {}
    }
}

// Notes whether a pool is open.
fn set(is_open: &mut Ports, pool: u8, value: bool)
    requires { length is_open.old ≡ 64 }
    ensures open { is_open.new ≡ with_pool pool value is_open.old }
    ensures len { length is_open.new ≡ 64 }
{
    if pool < PoolId::COUNT {
        is_open[usize::from(pool)] = value;
    }
}

/// The pools that are open, rising.
pub fn pools_in(alloc: Global, is_open: &Ports) -> Result<Vec<u8>, AllocError>
    requires { length is_open.now ≡ 64 }
    ensures { IfOk result (λ pools. pools.items ≡ pools_from 0 is_open.now) }
{
    let mut pools = Vec::with_capacity(alloc, 64)?;
    for pool in 0..PoolId::COUNT {
        if is_open[usize::from(pool)] {
            pools.push(pool)?;
        }
    }
    Ok(pools)
}
