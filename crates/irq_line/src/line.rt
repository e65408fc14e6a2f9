//! The words under their rule, and the kinds of step on them.
ghost use Rattle.std.specs.Prelude.{[]};
ghost use Rattle.irq_line.specs.declared.views.View.TheVariants.{Device, Spent};
ghost use Rattle.irq_line.specs.Line.{IsLine, IsRaise, IsTake, IsPeek, IsBeside, one_more_seated, next_guest, joined, device_alone, guest_alone};

use crate::views::View;
use atomic_table::{Join, Play, Split, Table, TableRule};
use std::alloc::Global;

/// The rule of a line, which every step keeps.
pub(crate) struct LineRule;

impl TableRule<(), View, ()> for LineRule {
    ghost holds = { λ _. IsLine };

    ghost first = { λ _. Device [] 0 };
}

/// A raise, which is a `fetch_or`.
pub(crate) struct Raises;

impl Play<(), View> for Raises {
    ghost then = { IsRaise };
}

/// A take, which is a `swap` with 0.
pub(crate) struct Takes;

impl Play<(), View> for Takes {
    ghost then = { IsTake };
}

/// A peek, which is a `load`.
pub(crate) struct Peeks;

impl Play<(), View> for Peeks {
    ghost then = { IsPeek };
}

/// The seat of the next pool, which the device's seat hands out.
pub(crate) struct NextGuest;

impl Split<View> for NextGuest {
    ghost left = { one_more_seated };

    ghost right = { next_guest };
}

/// The device's seat and a guest's in one, which is told what the rule says of both.
pub(crate) struct Beside;

impl Join<View> for Beside {
    ghost both = { joined };

    ghost spent = { Spent };
}

impl Play<(), View> for Beside {
    ghost then = { IsBeside };
}

impl Split<View> for Beside {
    ghost left = { device_alone };

    ghost right = { guest_alone };
}

/// The words of a line.
pub(crate) type Line = Table<(), View, (), LineRule, Global>;
