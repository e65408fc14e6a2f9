//! The messages of a function's driver, and the words of a reply.
ghost use Rattle.std.specs.Prelude.{◌≡◌};
ghost use Rattle.mailbox.specs.Message.{message_from, by_type, api_of, multicast_of, mode_of, vlan_message, second_message, api_message};

use crate::address::Address;
use crate::registers::{
    API_NEGOTIATE, GET_LINK_STATE, GET_QUEUES, NACK, RESET, SET_LPE, SET_MAC_ADDR, SET_MACVLAN,
    SET_MULTICAST, SET_VLAN, UPDATE_XCAST_MODE,
};
use wire_frame::Vid;

/// A version of the messages (Linux ixgbevf, mbx.h).
#[derive(Clone, Copy, Debug, PartialEq, Eq)]
pub enum Api {
    /// 1.0, which is number 0.
    V1_0,
    /// 1.1, number 2: queues.
    V1_1,
    /// 1.2, number 3: multicast modes, and the link.
    V1_2,
    /// 1.3, number 4.
    V1_3,
}

/// Which multicast a function wants.
#[derive(Clone, Copy, Debug, PartialEq, Eq)]
pub enum Multicast {
    /// None: mode 0.
    Off,
    /// The groups that were asked for: mode 1.
    Asked,
    /// All: mode 2.
    All,
}

/// A message of a function's driver (Linux ixgbevf, mbx.h and vf.c).
#[derive(Clone, Copy, Debug, PartialEq, Eq)]
pub enum Message {
    /// RESET: the driver begins.
    Reset,
    /// SET_MAC_ADDR: the address that the function wants as its own.
    SetAddress(Address),
    /// SET_MULTICAST: whether the function wants to receive groups.
    SetMulticast(bool),
    /// SET_VLAN: the function joins the VLAN.
    JoinVlan(Vid),
    /// SET_VLAN: the function leaves the VLAN.
    LeaveVlan(Vid),
    /// SET_LPE: how long the function's frames may be, with the FCS.
    SetFrameLength(u32),
    /// SET_MACVLAN, number 0: the function gives its second address up.
    ClearSecond,
    /// SET_MACVLAN, number 1: it gives its second address up, and wants that one.
    ReplaceSecond(Address),
    /// SET_MACVLAN, every further number: it wants one more address.
    AddSecond(Address),
    /// API_NEGOTIATE: the version of the messages.
    NegotiateApi(Api),
    /// GET_QUEUES: how many queues there are.
    GetQueues,
    /// UPDATE_XCAST_MODE: which multicast the function wants, or a mode above all of it.
    SetMulticastMode(Option<Multicast>),
    /// GET_LINK_STATE: whether the link is up.
    GetLinkState,
    /// Every other one.
    Other,
}

/// Words 0 to 4 of the memory, as a reply has them: word 0 is that of the message, with ACK or NACK, and CTS.
#[derive(Clone, Copy, Debug, PartialEq, Eq)]
pub struct Reply {
    /// The words.
    pub words: [u32; 5],
}

impl Api {
    // The version of that number.
    fn of(number: u32) -> Option<Api>
        ensures { result ≡ api_of number }
    {
        match number {
            0 => Some(Api::V1_0),
            2 => Some(Api::V1_1),
            3 => Some(Api::V1_2),
            4 => Some(Api::V1_3),
            _ => None,
        }
    }
}

impl Multicast {
    // The mode of that number.
    fn of(number: u32) -> Option<Multicast>
        ensures { result ≡ multicast_of number }
    {
        match number {
            0 => Some(Multicast::Off),
            1 => Some(Multicast::Asked),
            2 => Some(Multicast::All),
            _ => None,
        }
    }

    /// The number of the mode.
    pub(crate) fn mode(self) -> u32
        ensures { result ≡ mode_of self }
    {
        match self {
            Multicast::Off => 0,
            Multicast::Asked => 1,
            Multicast::All => 2,
        }
    }
}

impl Message {
    /// The message of which these are words 0, 1 and 2.
    ///
    /// Bits 15:0 of word 0 are its type, and bits 23:16 a number that some types have. RESET is known by the whole word. A word
    /// with ACK or NACK is an answer, and no message.
    #[tactic(auto, unfolding(crate::specs::Message::message_from, crate::specs::Message::by_type))]
    pub(crate) fn of(head: u32, first: u32, second: u32) -> Message
        ensures { result ≡ message_from head first second }
    {
        if head == RESET {
            return Message::Reset;
        }
        if head >= NACK {
            return Message::Other;
        }
        let number = head / 0x1_0000 % 0x100;
        match head % 0x1_0000 {
            SET_MAC_ADDR => Message::SetAddress(Address::of_words(first, second)),
            SET_MULTICAST => Message::SetMulticast(number != 0),
            SET_VLAN => vlan_message(number, first),
            SET_LPE => Message::SetFrameLength(first),
            SET_MACVLAN => second_message(number, first, second),
            API_NEGOTIATE => api_message(first),
            GET_QUEUES => Message::GetQueues,
            UPDATE_XCAST_MODE => Message::SetMulticastMode(Multicast::of(first)),
            GET_LINK_STATE => Message::GetLinkState,
            _ => Message::Other,
        }
    }
}

// SET_VLAN: number 0 leaves the VLAN of bits 11:0, and any other joins it.
fn vlan_message(number: u32, first: u32) -> Message
    ensures { result ≡ vlan_message number first }
{
    let id = Vid::of_tag((first % 0x1_0000) as u16);
    if number == 0 {
        Message::LeaveVlan(id)
    } else {
        Message::JoinVlan(id)
    }
}

// SET_MACVLAN: number 0 gives the second address up, number 1 does so and asks for one, and every further number asks for one.
fn second_message(number: u32, first: u32, second: u32) -> Message
    ensures { result ≡ second_message number first second }
{
    match number {
        0 => Message::ClearSecond,
        1 => Message::ReplaceSecond(Address::of_words(first, second)),
        _ => Message::AddSecond(Address::of_words(first, second)),
    }
}

// API_NEGOTIATE, of a version that the host speaks.
fn api_message(number: u32) -> Message
    ensures { result ≡ api_message number }
{
    match Api::of(number) {
        Some(api) => Message::NegotiateApi(api),
        None => Message::Other,
    }
}
