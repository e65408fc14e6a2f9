//! The registers of the mailbox, and the words of its messages (82599 datasheet, VF Mailbox; Linux ixgbevf, mbx.h).
use wire_frame::Row;

/// VFMBMEM, the memory of the mailbox.
pub const VFMBMEM: Row = Row {
    first: 0x200,
    count: 16,
    stride: 4,
    mask: 0xFFFF_FFFF,
};
/// VFMAILBOX, what is rung and what has happened.
pub const VFMAILBOX: u32 = 0x2FC;
/// Bit REQ of VFMAILBOX: the function asks the host to read a message.
pub const REQ: u32 = 0;
/// Bit VFU of VFMAILBOX as a mask: the function has taken the memory.
pub const VFU: u32 = 0x4;
/// Bits PFSTS and PFACK of VFMAILBOX as a mask: the host has written an answer, and has read the message.
pub const ANSWERED: u32 = 0x30;
/// Bit PFSTS of VFMAILBOX as a mask: the host has written into the memory.
pub const PFSTS: u32 = 0x10;
/// Bits VFU and PFACK of VFMAILBOX as a mask: the function's driver has taken the memory, or has not looked since its message
/// was answered.
pub const HELD: u32 = 0x24;
/// Bit RSTD of VFMAILBOX as a mask: the function was reset from outside.
pub const RSTD: u32 = 0x80;
/// The bits of VFMAILBOX that a read leaves as they are: VFU, PFU and RSTI. It clears PFSTS, PFACK and RSTD.
pub const READ_KEEPS: u32 = 0x4C;
/// The bits of VFMAILBOX that a write of the function leaves as they are: all that are kept, but for VFU.
pub const WRITE_KEEPS: u32 = 0xF8;
/// Word 0 after a reset from outside: a control message of the host that is a refusal, without CTS.
pub const WORD_AFTER_RESET: u32 = 0x4000_0100;

/// Bit CTS of word 0: the function may send.
pub const CTS: u32 = 0x2000_0000;
/// Bit NACK of word 0: the message is refused.
pub const NACK: u32 = 0x4000_0000;
/// Bit ACK of word 0: the message is granted.
pub const ACK: u32 = 0x8000_0000;

/// RESET, the whole word 0 of a message.
pub const RESET: u32 = 1;
/// A message of the host's own, a type, in bits 15:0 of word 0.
pub const CONTROL: u32 = 0x100;
/// SET_MAC_ADDR, a type of message, in bits 15:0 of word 0.
pub const SET_MAC_ADDR: u32 = 2;
/// SET_MULTICAST, a type of message.
pub const SET_MULTICAST: u32 = 3;
/// SET_VLAN, a type of message.
pub const SET_VLAN: u32 = 4;
/// SET_LPE, a type of message.
pub const SET_LPE: u32 = 5;
/// SET_MACVLAN, a type of message.
pub const SET_MACVLAN: u32 = 6;
/// API_NEGOTIATE, a type of message.
pub const API_NEGOTIATE: u32 = 8;
/// GET_QUEUES, a type of message.
pub const GET_QUEUES: u32 = 9;
/// UPDATE_XCAST_MODE, a type of message.
pub const UPDATE_XCAST_MODE: u32 = 12;
/// GET_LINK_STATE, a type of message.
pub const GET_LINK_STATE: u32 = 16;
