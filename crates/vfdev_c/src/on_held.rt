//! How a call comes to what its handle leads to.

// What is done to what a handle leads to, where it is of the first kinds. Where it leads to nothing, or is of the others, nothing
// changes, and `none` is the answer.
//
// A macro, so that each export is proved by what it does itself: a function would have to state, for all of them, what is done to what
// is lent out of an enum in a box.
macro_rules! on_held {
    ($handle:ident, $alloc:ident, $none:expr, $($kind:ident $held:ident => $done:expr),+; $($other:ident)|+) => {
        match $handle.take($alloc) {
            Some(mut state) => {
                let answer = match &mut *state {
                    $($crate::handle_state::HandleState::$kind($held) => $done,)+
                    $($crate::handle_state::HandleState::$other(_))|+ => $none,
                };
                $handle.put(state);
                answer
            }
            None => $none,
        }
    };
}

pub(crate) use on_held;
