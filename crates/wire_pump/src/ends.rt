//! The two ends of a channel.
ghost use Rattle.std.specs.Prelude.{◌≡◌, ◌+◌, ◌<◌, ◌⊎◌, ◌++◌, ◌∷◌, [], List, true, false, length, vec_capacity, IfSome, IfNone, OnSome, if◌then◌else◌};
ghost use Rattle.std.specs.Box.{box_value};
ghost use Rattle.wire_pump.specs.declared.message.WireMsg.{WireMsg};
ghost use Rattle.wire_pump.specs.declared.message.WireMsg.TheVariants.{Frame as OfFrame, Last};
ghost use Rattle.crossbeam_channel.specs.Claims.{IsSeatAt};
ghost use Rattle.crossbeam_channel.specs.Ends.{sends_on, receives_on};
ghost use Rattle.wire_pump.specs.Pump.{is_ended, is_proper, sender, receiver, IsReceived};
ghost use Rattle.wire_pump.specs.Ends.{way_of, hand_of, count_frames, HasAllBoxes, AreAllBoxes};

use crate::flow::{Back, Ends, Flow, Hand, Receives, Sends};
use crate::making::FRAMES;
use crate::message::Parcel;
use crossbeam_channel::{Pass, RuledReceiver, RuledSender};
use std::marker::Model;
use std::sync::Wait;
use wire_frame::{Frame, FrameBuf, FrameLimit};

/// The end of the wire's reader. Contracts see its channel, how many messages that holds, those that were sent, how many boxes
/// there are to be filled, and the frames whose boxes came back.
#[derive(Drop)]
pub struct FrameSender {
    pub(crate) end: RuledSender<Parcel, Hand, Flow>,
    pub(crate) pass: Pass<Parcel, Hand>,
    // whether `Last` was sent
    pub(crate) last_sent: bool,
    // frames to be filled that were never sent, and those that came back
    pub(crate) blanks: Vec<Box<FrameBuf>>,
    pub(crate) used: RuledReceiver<Parcel, Hand, Flow>,
    pub(crate) used_pass: Pass<Parcel, Hand>,
}

impl Model for FrameSender {
    ghost use Rattle.wire_pump.specs.Ends.{SendEnd};

    ghost Value = { SendEnd };

    ghost use Rattle.std.specs.Prelude.{◌≡◌, ◌+◌, ◌≤◌, true, length, vec_capacity};
    ghost use Rattle.crossbeam_channel.specs.Claims.{IsSeatAt};
    ghost use Rattle.crossbeam_channel.specs.Ends.{sends_on, receives_on, ruled_capacity};
    ghost use Rattle.wire_pump.specs.Pump.{sender, receiver, is_ended, is_proper};
    ghost use Rattle.wire_pump.specs.Ends.{channel_of, hand_of, count_frames};

    ghost view = { λ s. record {
      channel = channel_of s.pass s.used_pass;
      capacity = ruled_capacity (sends_on s.end);
      sent = (hand_of s.pass).sent;
      boxes = length s.blanks.items;
      came_back = (hand_of s.used_pass).received;
    } };

    ghost invariant = { λ s. IsSeatAt (sends_on s.end) s.pass
        × (hand_of s.pass ≡ sender (hand_of s.pass).sent)
        × (is_proper (hand_of s.pass).sent ≡ true)
        × (s.last_sent ≡ is_ended (hand_of s.pass).sent)
        × IsSeatAt (receives_on s.used) s.used_pass
        × (hand_of s.used_pass ≡ receiver (hand_of s.used_pass).received)
        × (length s.blanks.items + count_frames (hand_of s.pass).sent
        ≡ 66 + count_frames (hand_of s.used_pass).received)
        × (length s.blanks.items ≤ 66) × (66 ≤ vec_capacity s.blanks) };
}

/// The end of the pump. Contracts see its channel, the messages that were received, the frames whose boxes were given back, and
/// whether one could not be, since the other end is gone.
#[derive(Drop)]
pub struct FrameReceiver {
    pub(crate) end: RuledReceiver<Parcel, Hand, Flow>,
    pub(crate) pass: Pass<Parcel, Hand>,
    // where frames go back that were used
    pub(crate) back: RuledSender<Parcel, Hand, Flow>,
    pub(crate) back_pass: Pass<Parcel, Hand>,
    // whether a frame could not go back
    pub(crate) is_alone: bool,
}

impl Model for FrameReceiver {
    ghost use Rattle.wire_pump.specs.Ends.{ReceiveEnd};

    ghost Value = { ReceiveEnd };

    ghost use Rattle.std.specs.Prelude.{◌≡◌, true, false};
    ghost use Rattle.crossbeam_channel.specs.Claims.{IsSeatAt};
    ghost use Rattle.crossbeam_channel.specs.Ends.{sends_on, receives_on};
    ghost use Rattle.wire_pump.specs.Pump.{sender, receiver, is_ended, is_proper};
    ghost use Rattle.wire_pump.specs.Ends.{channel_of, hand_of};

    ghost view = { λ r. record {
      channel = channel_of r.pass r.back_pass;
      received = (hand_of r.pass).received;
      given = (hand_of r.back_pass).sent;
      is_alone = r.is_alone;
    } };

    ghost invariant = { λ r. IsSeatAt (receives_on r.end) r.pass
        × (hand_of r.pass ≡ receiver (hand_of r.pass).received)
        × IsSeatAt (sends_on r.back) r.back_pass
        × (hand_of r.back_pass ≡ sender (hand_of r.back_pass).sent)
        × (is_proper (hand_of r.back_pass).sent ≡ true)
        × (is_ended (hand_of r.back_pass).sent ≡ false) };
}

impl FrameSender {
    /// Sends a frame, and tells whether it was sent. It waits while 64 messages are under way. It was not sent, and never will
    /// be, where the receiver is gone or `Last` was sent before.
    #[tactic(auto, using(crate::proofs::Moves::goes_on, crate::proofs::Moves::ended_frame, crate::proofs::Moves::one_frame))]
    pub fn frame<R: Wait>(&mut self, rt: &R, frame: Frame<'_>) -> bool
        ensures sent { self.new ≡ record self.old {
          sent = if result then self.old.sent ++ OfFrame frame.entry.bytes.now ∷ [] else self.old.sent;
          boxes = self.new.boxes;
          came_back = self.new.came_back;
        } }
        ensures proper { is_proper self.new.sent ≡ true }
        ensures after_last { is_ended self.old.sent ≡ true → result ≡ false }
    {
        if self.last_sent {
            return false;
        }
        let Some(mut room) = blank(rt, &mut self.blanks, &self.used, &mut self.used_pass) else {
            return false;
        };
        fill(&mut room, frame);
        match send(rt, &self.end, &mut self.pass, Parcel::of(room)) {
            None => true,
            Some(unsent) => {
                keep(&mut self.blanks, unsent);
                false
            }
        }
    }

    /// Sends `Last`, which says that no frame comes any more, and tells whether it was sent.
    #[tactic(auto, using(crate::proofs::Moves::goes_on, crate::proofs::Moves::ended_last, crate::proofs::Moves::no_frame))]
    pub fn last<R: Wait>(&mut self, rt: &R) -> bool
        ensures sent { self.new ≡ record self.old {
          sent = if result then self.old.sent ++ Last ∷ [] else self.old.sent;
        } }
        ensures proper { is_proper self.new.sent ≡ true }
        ensures after_last { is_ended self.old.sent ≡ true → result ≡ false }
    {
        if self.last_sent {
            return false;
        }
        let sent = send(rt, &self.end, &mut self.pass, Parcel::last()).is_none();
        self.last_sent = sent;
        sent
    }

    /// Whether `Last` was sent, so that nothing more is.
    pub fn is_ended(&self) -> bool
        ensures { result ≡ is_ended self.now.sent }
    {
        self.last_sent
    }

    /// A law: each box that the channel was made with is there to be filled, or went out with a frame and came back, or has not
    /// come back yet. The call does nothing.
    pub fn agrees(&self)
        ensures boxes { HasAllBoxes self.now }
    {
        prove!(self.blanks.len() <= FRAMES);
    }

    /// Compares the two ends of one channel, which changes neither: what was received is a beginning of what was sent, and all
    /// of it once `Last` was received. The boxes of the channel are 66: those to be filled, those under way and on their way
    /// back, and those of frames that were received and whose boxes were not given back.
    #[tactic(auto, using(crate::proofs::Moves::all_once_ended))]
    pub fn beside(&mut self, receiver: FrameReceiver) -> FrameReceiver
        requires one { receiver.channel ≡ self.old.channel }
        ensures sender { self.new ≡ self.old }
        ensures receiver { result ≡ receiver }
        ensures beginning { (under_way : List WireMsg)
            × (self.new.sent ≡ result.received ++ under_way) }
        ensures whole { is_ended result.received ≡ true → self.new.sent ≡ result.received }
        ensures proper { is_proper self.new.sent ≡ true }
        ensures boxes { (under_way back_way : List WireMsg)
            × (self.new.sent ≡ result.received ++ under_way)
            × (result.given ≡ self.new.came_back ++ back_way)
            × AreAllBoxes self.new.boxes under_way back_way result }
    {
        let FrameReceiver {
            end,
            pass,
            back,
            back_pass,
            is_alone,
        } = receiver;
        let pass = compare_forth(&self.end, &mut self.pass, pass);
        let back_pass = compare_back(&back, &mut self.used_pass, back_pass);
        FrameReceiver {
            end,
            pass,
            back,
            back_pass,
            is_alone,
        }
    }
}

impl FrameReceiver {
    /// The next message. It waits while none is under way. None comes where the sender is gone and all was received.
    pub(crate) fn next<R: Wait>(&mut self, rt: &R) -> Option<Parcel>
        ensures some { IfSome result (λ message.
            self.new ≡ record self.old { received = self.old.received ++ message ∷ [] }) }
        ensures proper { IfSome result (λ message. is_proper self.new.received ≡ true) }
        ensures none { IfNone result (self.new ≡ self.old) }
    {
        receive(rt, &self.end, &mut self.pass)
    }

    /// Gives a frame back that was used, so that it is filled again. Where the sender is gone, the frame goes too.
    #[tactic(auto, using(crate::proofs::Moves::goes_on, crate::proofs::Moves::ended_frame))]
    pub(crate) fn put_back<R: Wait>(&mut self, rt: &R, used: Box<FrameBuf>)
        ensures given { self.new.is_alone ≡ false
            → self.new ≡ record self.old { given = self.old.given ++ OfFrame (box_value used) ∷ [] } }
        ensures rest { self.new
            ≡ record self.old { given = self.new.given; is_alone = self.new.is_alone } }
        ensures alone { self.old.is_alone ≡ true → self.new.is_alone ≡ true }
    {
        let went = send(rt, &self.back, &mut self.back_pass, Parcel::of(used)).is_none();
        self.is_alone = self.is_alone || !went;
    }
}

// A frame to be filled: one that was never sent, or the next that comes back. None comes where the receiver is gone and has
// given all back.
fn blank<R: Wait>(
    rt: &R,
    blanks: &mut Vec<Box<FrameBuf>>,
    used: &RuledReceiver<Parcel, Hand, Flow>,
    pass: &mut Pass<Parcel, Hand>,
) -> Option<Box<FrameBuf>>
    requires seated { IsSeatAt (receives_on used.now) pass.old }
    requires receiver { hand_of pass.old ≡ receiver (hand_of pass.old).received }
    ensures seated { IsSeatAt (receives_on used.now) pass.new }
    ensures way { way_of pass.new ≡ way_of pass.old }
    ensures receiver { hand_of pass.new ≡ receiver (hand_of pass.new).received }
    ensures some { OnSome result
        (length blanks.new.items + 1 + count_frames (hand_of pass.old).received
        ≡ length blanks.old.items + count_frames (hand_of pass.new).received) }
    ensures none { IfNone result
        (length blanks.new.items + count_frames (hand_of pass.old).received
        ≡ length blanks.old.items + count_frames (hand_of pass.new).received) }
    ensures fewer { (length blanks.new.items < length blanks.old.items)
        ⊎ (length blanks.new.items ≡ 0) }
    ensures room { vec_capacity blanks.new ≡ vec_capacity blanks.old }
{
    if let Some(blank) = blanks.pop() {
        return Some(blank);
    }
    next_back(rt, used, pass)
}

// The next box that comes back.
#[tactic(auto, using(crate::proofs::Moves::box_back, crate::proofs::Moves::last_back))]
fn next_back<R: Wait>(
    rt: &R,
    used: &RuledReceiver<Parcel, Hand, Flow>,
    pass: &mut Pass<Parcel, Hand>,
) -> Option<Box<FrameBuf>>
    requires seated { IsSeatAt (receives_on used.now) pass.old }
    requires receiver { hand_of pass.old ≡ receiver (hand_of pass.old).received }
    ensures seated { IsSeatAt (receives_on used.now) pass.new }
    ensures way { way_of pass.new ≡ way_of pass.old }
    ensures receiver { hand_of pass.new ≡ receiver (hand_of pass.new).received }
    ensures some { OnSome result (count_frames (hand_of pass.new).received
        ≡ count_frames (hand_of pass.old).received + 1) }
    ensures none { IfNone result (count_frames (hand_of pass.new).received
        ≡ count_frames (hand_of pass.old).received) }
{
    match receive(rt, used, pass) {
        Some(parcel) => parcel.frame(),
        None => None,
    }
}

// Keeps the box of a message that was not sent, so that it is filled again.
fn keep(blanks: &mut Vec<Box<FrameBuf>>, unsent: Parcel)
    requires room { length blanks.old.items < vec_capacity blanks.old }
    ensures kept { length blanks.new.items ≡ length blanks.old.items + count_frames (unsent ∷ []) }
    ensures room { vec_capacity blanks.new ≡ vec_capacity blanks.old }
{
    if let Some(frame) = unsent.frame() {
        blanks.push_reserved(frame);
    }
}

// Compares the two ends of the way of messages, which changes neither.
fn compare_forth(
    end: &RuledSender<Parcel, Hand, Flow>,
    pass: &mut Pass<Parcel, Hand>,
    other: Pass<Parcel, Hand>,
) -> Pass<Parcel, Hand>
    requires seated { IsSeatAt (sends_on end.now) pass.old × IsSeatAt (sends_on end.now) other }
    requires sender { hand_of pass.old ≡ sender (hand_of pass.old).sent }
    requires receiver { hand_of other ≡ receiver (hand_of other).received }
    ensures seated { IsSeatAt (sends_on end.now) pass.new × IsSeatAt (sends_on end.now) result }
    ensures same { (hand_of pass.new ≡ hand_of pass.old) × (hand_of result ≡ hand_of other) }
    ensures beginning { (under_way : List WireMsg)
        × ((hand_of pass.new).sent ≡ (hand_of result).received ++ under_way) }
    ensures proper { is_proper (hand_of pass.new).sent ≡ true }
{
    end.absorb::<Ends>(pass, other);
    end.learn_as::<Ends>(pass);
    end.another::<Ends>(pass)
}

// Compares the two ends of the way back, which changes neither.
fn compare_back(
    back: &RuledSender<Parcel, Hand, Flow>,
    used_pass: &mut Pass<Parcel, Hand>,
    back_pass: Pass<Parcel, Hand>,
) -> Pass<Parcel, Hand>
    requires seated { IsSeatAt (sends_on back.now) used_pass.old × IsSeatAt (sends_on back.now) back_pass }
    requires receiver { hand_of used_pass.old ≡ receiver (hand_of used_pass.old).received }
    requires sender { hand_of back_pass ≡ sender (hand_of back_pass).sent }
    ensures seated { IsSeatAt (sends_on back.now) used_pass.new × IsSeatAt (sends_on back.now) result }
    ensures same { (hand_of used_pass.new ≡ hand_of used_pass.old) × (hand_of result ≡ hand_of back_pass) }
    ensures beginning { (back_way : List WireMsg)
        × ((hand_of result).sent ≡ (hand_of used_pass.new).received ++ back_way) }
{
    back.absorb::<Back>(used_pass, back_pass);
    back.learn_as::<Back>(used_pass);
    back.another::<Back>(used_pass)
}

// Makes a frame equal to another.
fn fill(room: &mut FrameBuf, frame: Frame<'_>)
    ensures { room.new ≡ frame.entry.bytes.now }
{
    room.refill(frame.bytes(), FrameLimit::longest());
}

// Sends a message that may follow. It comes back where it was not sent.
fn send<R: Wait>(
    rt: &R,
    end: &RuledSender<Parcel, Hand, Flow>,
    pass: &mut Pass<Parcel, Hand>,
    message: Parcel,
) -> Option<Parcel>
    requires seated { IsSeatAt (sends_on end.now) pass.old }
    requires sender { hand_of pass.old ≡ sender (hand_of pass.old).sent }
    requires proper { is_proper ((hand_of pass.old).sent ++ message ∷ []) ≡ true }
    ensures seated { IsSeatAt (sends_on end.now) pass.new }
    ensures way { way_of pass.new ≡ way_of pass.old }
    ensures sent { IfNone result
        (hand_of pass.new ≡ sender ((hand_of pass.old).sent ++ message ∷ [])) }
    ensures unsent { IfSome result
        (λ back. (back ≡ message) × (hand_of pass.new ≡ hand_of pass.old)) }
{
    match end.send_as::<Sends, R>(rt, pass, message) {
        Ok(()) => None,
        Err(unsent) => Some(unsent.into_inner()),
    }
}

// The next message, if one comes.
fn receive<R: Wait>(
    rt: &R,
    end: &RuledReceiver<Parcel, Hand, Flow>,
    pass: &mut Pass<Parcel, Hand>,
) -> Option<Parcel>
    requires seated { IsSeatAt (receives_on end.now) pass.old }
    requires receiver { hand_of pass.old ≡ receiver (hand_of pass.old).received }
    ensures seated { IsSeatAt (receives_on end.now) pass.new }
    ensures way { way_of pass.new ≡ way_of pass.old }
    ensures some { IfSome result
        (λ message. IsReceived (hand_of pass.old) message (hand_of pass.new)) }
    ensures none { IfNone result (hand_of pass.new ≡ hand_of pass.old) }
{
    end.recv_as::<Receives, R>(rt, pass).ok()
}
