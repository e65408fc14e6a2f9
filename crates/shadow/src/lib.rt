//! A value as it was, for contracts alone.
//!
//! A [`Shadow`] has no bytes and does nothing at run time. Contracts read its `value`, which is what the source that it was made
//! of shows: a value that stands in memory ([`Shadow::of`]), so that a type may still speak of one that it has handed on, or one
//! that a type's [`Shows`] makes of what it has ([`Shadow::by`]), as a list that stands nowhere and that each call adds to. Like
//! `std::snapshot::Snapshot`, it owns nothing and may go to another thread, and it may do so inside types that hold tokens too.
//! The crate stands on std alone.
//!
//! Nobody picks the value: each maker's clause says what it is, and `by` is the only function here whose proof is written by hand.
#![tactic(auto)]

ghost use Rattle.std.specs.Borrow.{ftrue};
ghost use Rattle.std.specs.Prelude.{◌≡◌};

use std::marker::{Model, PhantomData};

/// What contracts see a `T` by. `shown` is that `T`, and it needn't stand anywhere.
pub trait Shows<T> {
    ghost shown: { Self → T };
}

// A value shows itself.
impl<T> Shows<T> for T {
    ghost shown = { λ x. x };
}

/// A `T` as clauses see it. It has no bytes and owns nothing.
#[derive(Drop)]
pub struct Shadow<T> {
    marker: PhantomData<T>,
    pub ghost value: { T },
}

impl<T> Model for Shadow<T> {
    ghost also_owns = { λ _. ftrue };
}

// It owns nothing, so that another thread may have it whatever a `T` is.
unsafe impl<T> Send for Shadow<T> {}

impl<T> Shadow<T> {
    /// What the reference shows.
    #[inline]
    pub fn of(shown: &T) -> Shadow<T>
        ensures { result.value ≡ shown.now }
    {
        Shadow::by(shown)
    }

    /// What the source shows.
    #[inline]
    pub fn by<S: Shows<T>>(source: &S) -> Shadow<T>
        ensures { result.value ≡ S.shown source.now }
    {
        let _ = source;
        Shadow {
            marker: PhantomData,
        }
    }
}
