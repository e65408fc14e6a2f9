//! How a call over a device of guests comes to it.

// What is done to the device of guests that a handle leads to. Where it leads to none, nothing changes and `none` is the answer.
macro_rules! on_guests {
    ($handle:ident, $alloc:ident, $none:expr, $held:ident => $done:expr) => {
        $crate::on_held::on_held!($handle, $alloc, $none, Guests $held => $done; Lending | Made | Kept | Lent | Card)
    };
}

pub(crate) use on_guests;
