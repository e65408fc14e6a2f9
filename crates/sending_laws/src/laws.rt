//! Segments, step by step; and what stops a queue.
ghost use Rattle.std.specs.Prelude.{◌≡◌, ◌+◌, suc, ℕ, List, map, false, Some, is_some};
ghost use Rattle.std.specs.List.{range_with_len};
ghost use Rattle.rings.specs.Ring.{RingState, head_slot};
ghost use Rattle.tx_desc.specs.declared.terms.Terms.{Terms};
ghost use Rattle.tx_desc.specs.declared.sending.Segments.{Segments};
ghost use Rattle.tx_desc.specs.declared.sending.Sending.{Sending};
ghost use Rattle.tx_desc.specs.Transmit.{next};
ghost use Rattle.tx_desc.specs.Offloaded.{is_plain, segments_of, emptied, fetch_with};
ghost use Rattle.tx_desc.specs.Misuses.{misuse_at};
ghost use Rattle.sending_laws.specs.Faults.{is_fault};
ghost use Rattle.sending_laws.specs.Steps.{outcomes, after, count_for, leaving_segment};

/// The segments of a frame leave one after the other, each once, from the next one to the last, in as many steps; the queue is done with
/// the frame then, and its ring is at the next descriptor.
pub fn segments_leave_in_order()
    ensures leave { (t : Terms) (memory : List ℕ) (ring : RingState) (s : Sending) (g : Segments) (at more : ℕ)
        → is_plain t.offloads ≡ false → head_slot ring ≡ Some at → segments_of s.stage ≡ Some g → g.number + suc more ≡ count_for t s g
        → outcomes t (suc more) memory ring s ≡ map (leaving_segment t s g) (range_with_len g.number (suc more)) }
    ensures done { (t : Terms) (memory : List ℕ) (ring : RingState) (s : Sending) (g : Segments) (at more : ℕ)
        → is_plain t.offloads ≡ false → head_slot ring ≡ Some at → segments_of s.stage ≡ Some g → g.number + suc more ≡ count_for t s g
        → (after t (suc more) memory ring s).sending ≡ emptied s }
    ensures goes_on { (t : Terms) (memory : List ℕ) (ring : RingState) (s : Sending) (g : Segments) (at more : ℕ)
        → is_plain t.offloads ≡ false → head_slot ring ≡ Some at → segments_of s.stage ≡ Some g → g.number + suc more ≡ count_for t s g
        → (after t (suc more) memory ring s).ring ≡ next ring }
{}

/// A step stops its queue just where there is a reason why its descriptor cannot be used.
pub fn faults_have_a_reason()
    ensures { (t : Terms) (memory : List ℕ) (ring : RingState) (s : Sending)
        → is_fault (fetch_with t memory ring s).outcome ≡ is_some (misuse_at t memory ring s) }
{}
