//! What a handle leads to, as a pointer that C may hold.
ghost use Rattle.std.specs.Prelude.{◌≡◌, Option, Some, None, is_some, true};
ghost use Rattle.vfdev_c.specs.Ownership.{state_owns, state_coded};
ghost use Rattle.vfdev_c.specs.declared.handle_state.HandleState.{HandleState};

use crate::handle_state::HandleState;
use crate::raw_box::RawBox;
use std::alloc::Global;
use std::marker::Model;

/// The right to what a handle leads to, or to nothing.
#[repr(C)]
#[derive(Drop)]
pub struct Owner {
    at: *mut u8,
    /// What it leads to.
    pub ghost held: { Option HandleState } by { state_coded },
}

impl Model for Owner {
    ghost also_owns = { λ o. state_owns o.at o.held };
}

// What C holds may go to another thread.
unsafe impl Send for Owner {}

impl Owner {
    /// Nothing.
    #[inline]
    pub fn none() -> Owner
        ensures { result.held ≡ None }
    {
        Owner {
            at: std::ptr::null_mut(),
        }
    }

    /// The right to what is in a box.
    #[inline]
    pub fn of(raw: RawBox<HandleState, Global>) -> Owner
        ensures { result.held ≡ Some raw.value }
    {
        let RawBox { at, alloc: _ } = raw;
        Owner { at: at as *mut u8 }
    }

    /// What it leads to, where it leads to anything.
    #[inline]
    pub fn into_raw_box(self, alloc: Global) -> RawBox<HandleState, Global>
        requires { is_some self.held ≡ true }
        ensures { Some result.value ≡ self.held }
    {
        let Owner { at } = self;
        RawBox {
            at: at as *mut HandleState,
            alloc,
        }
    }
}
