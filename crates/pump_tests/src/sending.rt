//! One thread that sends and receives.
use crate::shelf::{Pumped, Shelf, end_of, frame_of, frames_of};
use std::alloc::Global;
use std::sync::Wait;
use std::test::Fail;
use wire_pump::{FeedEnd, channel, feed, pump};

// How a pump ended, and how many frames it brought.
type Seen = (Pumped, Option<usize>);

// So many frames are sent, `Last` where it is to be, and the sender goes. How two pumps end then, to doors with this room: the
// second begins behind the frame at which the first was full.
fn pumped_twice<R: Wait>(
    rt: &R,
    alloc: Global,
    count: usize,
    has_last: bool,
    room: usize,
) -> Result<(Seen, Seen), Fail> {
    let (mut sender, mut receiver) = channel(alloc)?;
    for number in 0..count {
        let frame = frame_of(number).ok_or("no frame")?;
        if !sender.frame(rt, frame.as_frame()) {
            return Err(Fail::from("not sent"));
        }
    }
    if has_last && feed(&mut sender, rt, &[]) != FeedEnd::All {
        return Err(Fail::from("no last"));
    }
    drop(sender);
    let mut shelf = Shelf::new(alloc, room);
    let first = end_of(pump(&mut receiver, rt, &mut shelf));
    let mut other = Shelf::new(alloc, room);
    let second = end_of(pump(&mut receiver, rt, &mut other));
    let behind = shelf.events.len().wrapping_add(1);
    Ok((
        (first, shelf.count_from(0)),
        (second, other.count_from(behind)),
    ))
}

// The door takes all, or three frames of five, of which the fourth is handed back; or there is no `Last`.
#[test]
fn frames_come_in_order_until_an_end(rt: HostRuntime) -> Result<(), Fail> {
    for (count, has_last, room, first, second) in [
        (5, true, 9, (Pumped::Last, 5), (Pumped::Gone, 0)),
        (5, true, 3, (Pumped::Full(3), 3), (Pumped::Last, 1)),
        (2, false, 9, (Pumped::Gone, 2), (Pumped::Gone, 0)),
    ] {
        let seen = pumped_twice(&rt, rt.alloc(), count, has_last, room)?;
        let due = ((first.0, Some(first.1)), (second.0, Some(second.1)));
        assert_eq!(rt; seen, due, "{count} frames, {room}");
    }
    Ok(())
}

// More pumps end at a door without room than a channel has frames, and none of its frames is lost by that.
#[test]
fn a_pump_may_go_on_after_it_was_full(rt: HostRuntime) -> Result<(), Fail> {
    let (mut sender, mut receiver) = channel(rt.alloc())?;
    let mut shelf = Shelf::new(rt.alloc(), 0);
    for number in 0..100usize {
        let frame = frame_of(number).ok_or("no frame")?;
        let is_sent = sender.frame(&rt, frame.as_frame());
        let end = end_of(pump(&mut receiver, &rt, &mut shelf));
        assert_eq!(rt; (is_sent, end), (true, Pumped::Full(number)));
    }
    Ok(())
}

#[test]
fn nothing_is_sent_after_last(rt: HostRuntime) -> Result<(), Fail> {
    let (mut sender, _receiver) = channel(rt.alloc())?;
    let frames = frames_of(rt.alloc(), 2).ok_or("no frames")?;
    let frame = frame_of(0).ok_or("no frame")?;
    let first = (sender.frame(&rt, frame.as_frame()), sender.is_ended());
    let last = (sender.last(&rt), sender.is_ended());
    let after = (sender.frame(&rt, frame.as_frame()), sender.last(&rt));
    let fed = feed(&mut sender, &rt, &frames);
    assert_eq!(rt;
        (first, last, after, fed),
        (
            (true, false),
            (true, true),
            (false, false),
            FeedEnd::Gone(0)
        )
    );
    Ok(())
}

#[test]
fn a_sender_is_told_that_the_receiver_is_gone(rt: HostRuntime) -> Result<(), Fail> {
    let (mut sender, receiver) = channel(rt.alloc())?;
    let frames = frames_of(rt.alloc(), 2).ok_or("no frames")?;
    let frame = frame_of(0).ok_or("no frame")?;
    drop(receiver);
    let fed = feed(&mut sender, &rt, &frames);
    let sent = (sender.frame(&rt, frame.as_frame()), sender.last(&rt));
    let none = feed(&mut sender, &rt, &[]);
    assert_eq!(rt;
        (fed, sent, none),
        (FeedEnd::Gone(0), (false, false), FeedEnd::Gone(0))
    );
    Ok(())
}

// The ends are compared while a frame is under way, and then `Last` follows it.
#[test]
fn ends_that_were_compared_go_on(rt: HostRuntime) -> Result<(), Fail> {
    let Ok((mut sender, receiver)) = channel(rt.alloc()) else {
        return Err(Fail::from("no channel"));
    };
    let Some(frame) = frame_of(0) else {
        return Err(Fail::from("no frame"));
    };
    let is_sent = sender.frame(&rt, frame.as_frame());
    let mut receiver = sender.beside(receiver);
    sender.agrees();
    let is_last = sender.last(&rt);
    let mut shelf = Shelf::new(rt.alloc(), 9);
    let end = end_of(pump(&mut receiver, &rt, &mut shelf));
    assert_eq!(rt;
        ((is_sent, is_last), end, shelf.count_from(0)),
        ((true, true), Pumped::Last, Some(1))
    );
    Ok(())
}
