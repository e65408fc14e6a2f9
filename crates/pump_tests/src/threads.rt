//! A feed and a pump in threads of their own.
use crate::shelf::{Pumped, Shelf, end_of, frames_of};
use std::alloc::Global;
use std::sync::Wait;
use std::test::Fail;
use std::thread;
use std::thread::Threads;
use wire_pump::{FeedEnd, channel, feed, pump};

// How many frames pass: each of the frames that a channel has room for is filled some times.
const MANY: usize = 700;

// Feeds in one thread and pumps in this one; how each ended, and how many frames the door took.
fn feed_and_pump<R: Threads + Wait + Copy + Send + 'static>(
    rt: &R,
    alloc: Global,
    room: usize,
) -> Result<(FeedEnd, Pumped, Option<usize>), Fail> {
    let (mut sender, mut receiver) = channel(alloc)?;
    let frames = frames_of(alloc, MANY).ok_or("no frames")?;
    let their = *rt;
    let reader = thread::spawn(rt, move || feed(&mut sender, &their, &frames))?;
    let mut shelf = Shelf::new(alloc, room);
    let end = end_of(pump(&mut receiver, rt, &mut shelf));
    drop(receiver);
    Ok((reader.join(rt), end, shelf.count_from(0)))
}

#[test]
fn frames_of_all_sizes_pass_in_order(rt: HostRuntime) -> Result<(), Fail> {
    let seen = feed_and_pump(&rt, rt.alloc(), MANY)?;
    assert_eq!(rt; seen, (FeedEnd::All, Pumped::Last, Some(MANY)));
    Ok(())
}

// The door takes one frame and no other. Two were received, and 64 more may have been under way.
#[test]
fn a_feed_ends_where_the_pump_does(rt: HostRuntime) -> Result<(), Fail> {
    let (fed, end, count) = feed_and_pump(&rt, rt.alloc(), 1)?;
    let is_gone = matches!(fed, FeedEnd::Gone(sent) if 2 <= sent && sent <= 66);
    assert_eq!(rt;
        (is_gone, end, count),
        (true, Pumped::Full(1), Some(1)),
        "{fed:?}"
    );
    Ok(())
}
