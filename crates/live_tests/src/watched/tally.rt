//! What came up.
use super::log::{Access, Log};
use device::{Outcome, Request, Response};
use std::process::Abort;

// How often each came up.
#[derive(Clone, Copy, Debug, Default)]
pub struct Tally {
    pub events: u64,
    // services, by what came of them
    pub sent: u64,
    pub left: u64,
    pub more: u64,
    pub dropped: u64,
    pub faulted: u64,
    // memories that a frame was written to: of the wire, and of another function; and events with interrupts
    pub received: u64,
    pub switched: u64,
    pub interrupts: u64,
    // reads by events of their own, and writes
    pub read: u64,
    pub written: u64,
    // accesses of memories: reads, those of them that gave something new, bytes of frames in the ring itself, and writes; and pairs
    // of a read and an access before it in the same event
    pub reads: u64,
    pub changed: u64,
    pub in_ring: u64,
    pub writes: u64,
    pub pairs: u64,
    // descriptors whose bytes aren't read, since their frame is too long; frames whose tag is taken off, so that they are written in
    // parts; those in several buffers; and those whose buffer passes the end of the memory
    pub unread: u64,
    pub in_parts: u64,
    pub in_buffers: u64,
    pub unplaced: u64,
}

// One more where it is so.
fn one_where(count: &mut u64, is_so: bool) {
    *count = count.wrapping_add(u64::from(is_so));
}

impl Tally {
    // Adds what came of an event.
    pub fn add_response(&mut self, request: Request<'_>, response: &Response) {
        one_where(&mut self.events, true);
        one_where(&mut self.left, response.left);
        one_where(&mut self.interrupts, !response.messages.pools().is_empty());
        let is_write = matches!(request, Request::MemWrite(_, _, _));
        match response.outcome {
            Outcome::Sent => one_where(&mut self.sent, true),
            Outcome::More => one_where(&mut self.more, true),
            Outcome::Dropped => one_where(&mut self.dropped, true),
            Outcome::Faulted => one_where(&mut self.faulted, true),
            Outcome::Bytes(_) => one_where(&mut self.read, true),
            Outcome::Done => one_where(&mut self.written, is_write),
            _ => {}
        }
    }

    // Adds an event by which the memory of a function was written.
    pub fn add_written(&mut self, request: Request<'_>, pool: u8) {
        match request {
            Request::Wire(_) => one_where(&mut self.received, true),
            Request::Serve(sender, _) => {
                one_where(&mut self.switched, sender != pool);
            }
            _ => {}
        }
    }

    // Adds an access: whether it read something new, and whether it lies in the ring of transmit descriptors.
    pub fn add_access(&mut self, access: &Access, is_changed: bool, is_in_ring: bool) {
        one_where(&mut self.reads, access.is_read);
        one_where(&mut self.changed, is_changed);
        one_where(
            &mut self.in_ring,
            access.is_read && is_in_ring && access.count != 16,
        );
        one_where(&mut self.writes, !access.is_read);
    }

    // Adds a pair of an access and one before it, which have no byte in common where the access reads.
    pub fn add_apart(&mut self, access: &Access) {
        one_where(&mut self.pairs, access.is_read);
    }

    // Adds the accesses of a frame that came to a function.
    pub fn add_arrived(&mut self, arrived: &Log) {
        let accesses = arrived.accesses();
        let reads = accesses.iter().filter(|access| access.is_read).count();
        let writes = accesses.len().saturating_sub(reads);
        one_where(&mut self.in_parts, writes > reads.saturating_mul(2));
        one_where(&mut self.in_buffers, writes > 0 && reads > 1);
        one_where(&mut self.unplaced, writes == 0 && reads > 0);
    }

    // Adds the accesses of an event of a function's own: whether the bytes of a descriptor weren't read.
    pub fn add_own(&mut self, is_unread: bool) {
        one_where(&mut self.unread, is_unread);
    }

    // Both together.
    pub fn and(self, other: Tally) -> Tally {
        Tally {
            events: self.events.wrapping_add(other.events),
            sent: self.sent.wrapping_add(other.sent),
            left: self.left.wrapping_add(other.left),
            more: self.more.wrapping_add(other.more),
            dropped: self.dropped.wrapping_add(other.dropped),
            faulted: self.faulted.wrapping_add(other.faulted),
            received: self.received.wrapping_add(other.received),
            switched: self.switched.wrapping_add(other.switched),
            interrupts: self.interrupts.wrapping_add(other.interrupts),
            read: self.read.wrapping_add(other.read),
            written: self.written.wrapping_add(other.written),
            reads: self.reads.wrapping_add(other.reads),
            changed: self.changed.wrapping_add(other.changed),
            in_ring: self.in_ring.wrapping_add(other.in_ring),
            writes: self.writes.wrapping_add(other.writes),
            pairs: self.pairs.wrapping_add(other.pairs),
            unread: self.unread.wrapping_add(other.unread),
            in_parts: self.in_parts.wrapping_add(other.in_parts),
            in_buffers: self.in_buffers.wrapping_add(other.in_buffers),
            unplaced: self.unplaced.wrapping_add(other.unplaced),
        }
    }

    // Wants each at least so often, and the rarer ones at least as often as the second number says.
    pub fn check(&self, rt: &impl Abort, least: u64, least_rare: u64) {
        let all = [
            self.sent,
            self.left,
            self.more,
            self.dropped,
            self.faulted,
            self.received,
            self.switched,
            self.interrupts,
            self.read,
            self.written,
            self.reads,
            self.changed,
            self.in_ring,
            self.writes,
            self.pairs,
            self.in_parts,
        ];
        for count in all {
            assert!(rt; count >= least, "{self:?}");
        }
        for count in [self.unread, self.in_buffers, self.unplaced] {
            assert!(rt; count >= least_rare, "{self:?}");
        }
    }
}
