//! Which register an offset names.
ghost use Rattle.std.specs.Prelude.{◌≡◌};
ghost use Rattle.vf_unit.specs.Registers.{register_at};

use crate::intervals::Vector;
use crate::offsets::*;
use rings::RingRegister;

/// A receive or transmit queue of a virtual function.
#[derive(Clone, Copy, Debug, PartialEq, Eq)]
pub enum Queue {
    /// Queue 0.
    Q0,
    /// Queue 1.
    Q1,
}

/// A register of a virtual function.
#[derive(Clone, Copy, Debug, PartialEq, Eq)]
pub enum Register {
    /// None: the offset is not in the map.
    Nowhere,
    /// VFCTRL.
    Control,
    /// VFLINKS.
    Links,
    /// VTEICR.
    CauseRead,
    /// VTEICS.
    CauseSet,
    /// VTEIMS.
    MaskSet,
    /// VTEIMC.
    MaskClear,
    /// VTEIAC.
    AutoClear,
    /// VTEIAM.
    AutoMask,
    /// VTIVAR.
    QueueVectors,
    /// VTIVAR_MISC.
    OtherVector,
    /// VTEITR.
    Interval(Vector),
    /// RDBAL, RDBAH, RDLEN, RDH or RDT.
    Receive(Queue, RingRegister),
    /// SRRCTL.
    ReceiveBuffers(Queue),
    /// RXDCTL.
    ReceiveControl(Queue),
    /// TDBAL, TDBAH, TDLEN, TDH or TDT.
    Transmit(Queue, RingRegister),
    /// TXDCTL.
    TransmitControl(Queue),
    /// VFGPRC.
    FramesReceived,
    /// VFGPTC.
    FramesSent,
}

/// The register at an offset.
#[tactic(auto, unfolding(crate::specs::Registers::register_at))]
pub fn register_of(offset: u32) -> Register
    ensures { result ≡ register_at offset }
{
    match offset {
        VFCTRL => Register::Control,
        VFLINKS => Register::Links,
        VTEICR => Register::CauseRead,
        VTEICS => Register::CauseSet,
        VTEIMS => Register::MaskSet,
        VTEIMC => Register::MaskClear,
        VTEIAC => Register::AutoClear,
        VTEIAM => Register::AutoMask,
        VTIVAR => Register::QueueVectors,
        VTIVAR_MISC => Register::OtherVector,
        VTEITR0 => Register::Interval(Vector::V0),
        VTEITR1 => Register::Interval(Vector::V1),
        VTEITR2 => Register::Interval(Vector::V2),
        RDBAL0 => Register::Receive(Queue::Q0, RingRegister::BaseLow),
        RDBAH0 => Register::Receive(Queue::Q0, RingRegister::BaseHigh),
        RDLEN0 => Register::Receive(Queue::Q0, RingRegister::Length),
        RDH0 => Register::Receive(Queue::Q0, RingRegister::Head),
        SRRCTL0 => Register::ReceiveBuffers(Queue::Q0),
        RDT0 => Register::Receive(Queue::Q0, RingRegister::Tail),
        VFGPRC => Register::FramesReceived,
        RXDCTL0 => Register::ReceiveControl(Queue::Q0),
        RDBAL1 => Register::Receive(Queue::Q1, RingRegister::BaseLow),
        RDBAH1 => Register::Receive(Queue::Q1, RingRegister::BaseHigh),
        RDLEN1 => Register::Receive(Queue::Q1, RingRegister::Length),
        RDH1 => Register::Receive(Queue::Q1, RingRegister::Head),
        SRRCTL1 => Register::ReceiveBuffers(Queue::Q1),
        RDT1 => Register::Receive(Queue::Q1, RingRegister::Tail),
        RXDCTL1 => Register::ReceiveControl(Queue::Q1),
        TDBAL0 => Register::Transmit(Queue::Q0, RingRegister::BaseLow),
        TDBAH0 => Register::Transmit(Queue::Q0, RingRegister::BaseHigh),
        TDLEN0 => Register::Transmit(Queue::Q0, RingRegister::Length),
        TDH0 => Register::Transmit(Queue::Q0, RingRegister::Head),
        TDT0 => Register::Transmit(Queue::Q0, RingRegister::Tail),
        VFGPTC => Register::FramesSent,
        TXDCTL0 => Register::TransmitControl(Queue::Q0),
        TDBAL1 => Register::Transmit(Queue::Q1, RingRegister::BaseLow),
        TDBAH1 => Register::Transmit(Queue::Q1, RingRegister::BaseHigh),
        TDLEN1 => Register::Transmit(Queue::Q1, RingRegister::Length),
        TDH1 => Register::Transmit(Queue::Q1, RingRegister::Head),
        TDT1 => Register::Transmit(Queue::Q1, RingRegister::Tail),
        TXDCTL1 => Register::TransmitControl(Queue::Q1),
        _ => Register::Nowhere,
    }
}
