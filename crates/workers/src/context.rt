//! What all workers share.
ghost use Rattle.std.specs.Prelude.{◌≡◌, IfOk};
ghost use Rattle.std.specs.Arc.{arc_value};

use crate::gate::Gate;
use crate::plan::Plan;
use device_lock::LockedDevice;
use guest_memory::GuestMem;
use std::alloc::AllocError;
use std::sync::Arc;
use std::sync::ledger::Ledger;

/// What all workers share.
#[derive(Drop)]
pub struct WorkerContext<M: GuestMem, L: Ledger, G: Gate + Drop> {
    /// Who does which event.
    pub plan: Arc<Plan>,
    /// The device that all of them ask.
    pub device: Arc<LockedDevice<M, L>>,
    /// What is called round each event.
    pub gate: Arc<G>,
}

impl<M: GuestMem, L: Ledger, G: Gate + Drop> WorkerContext<M, L, G> {
    /// The same for one more worker.
    pub fn another(&self) -> Result<WorkerContext<M, L, G>, AllocError>
        ensures { IfOk result (λ other. arc_value other.plan ≡ arc_value self.now.plan) }
    {
        Ok(WorkerContext {
            plan: Arc::try_clone(&self.plan)?,
            device: Arc::try_clone(&self.device)?,
            gate: Arc::try_clone(&self.gate)?,
        })
    }
}
