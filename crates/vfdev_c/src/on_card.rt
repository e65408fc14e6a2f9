//! How a call over a card comes to it.

// What is done to the card that a handle leads to. Where it leads to none, nothing changes and `none` is the answer.
macro_rules! on_card {
    ($handle:ident, $alloc:ident, $none:expr, $held:ident => $done:expr) => {
        $crate::on_held::on_held!($handle, $alloc, $none, Card $held => $done; Lending | Made | Kept | Lent | Guests)
    };
}

pub(crate) use on_card;
