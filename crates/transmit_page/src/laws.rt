//! Laws of the changes of a queue. A function here does nothing: its contract is the law.
ghost use Rattle.std.specs.Prelude.{◌≡◌, ◌≤◌, ◌++◌, true, false, ℕ, List, [], ◌∷◌, length, Some};
ghost use Rattle.transmit_page.specs.declared.words.RingWords.{RingWords};
ghost use Rattle.transmit_page.specs.declared.words.TransmitRegister.{TransmitRegister};
ghost use Rattle.transmit_page.specs.declared.words.TransmitRegister.TheVariants.{Tail};
ghost use Rattle.transmit_page.specs.declared.changes.TransmitWrite.{TransmitWrite};
ghost use Rattle.transmit_page.specs.Words.{is_on, offset_of, register_at};
ghost use Rattle.transmit_page.specs.Changes.{changes, comes_on, written, write};
ghost use Rattle.transmit_page.specs.Laws.{IsAmong, IsItsWord, ComesOnLast, has_reason, is_of_ring};

/// Nothing is lost: a queue whose words were so has them as they are now once its changes were written in their order.
pub fn nothing_is_lost()
    ensures { (was now : RingWords) → written was (changes was now) ≡ now }
{}

/// Nothing is invented: each register that is written has changed, or is the control of a queue that goes off or comes on, or the tail of one
/// that comes on; and what is written is its word, but for a control by which the queue goes off.
pub fn nothing_is_invented()
    ensures reason { (was now : RingWords) (before behind : List TransmitWrite) (w : TransmitWrite)
        → IsAmong was now before w behind → has_reason w.register was now ≡ true }
    ensures value { (was now : RingWords) (before behind : List TransmitWrite) (w : TransmitWrite)
        → IsAmong was now before w behind → IsItsWord was now w }
{}

/// Base, length and head are written only while the queue is off, whatever of the changes was written before.
pub fn a_ring_is_set_while_its_queue_is_off()
    ensures { (was now : RingWords) (before behind : List TransmitWrite) (w : TransmitWrite)
        → IsAmong was now before w behind → is_of_ring w.register ≡ true → is_on (written was before) ≡ false }
{}

/// A queue comes on as the last but its tail, when it has all its words; and no write of base, length or head is behind one of its tail.
pub fn a_queue_comes_on_last()
    ensures on { (was now : RingWords) → comes_on was now ≡ true → (before : List TransmitWrite) × ComesOnLast was now before }
    ensures tail { (was now : RingWords) (before between behind : List TransmitWrite) (x : ℕ) (w : TransmitWrite)
        → IsAmong was now before (write Tail x) (between ++ w ∷ behind) → is_of_ring w.register ≡ false }
{}

/// There are ten writes at most, and none where nothing has changed.
pub fn changes_are_few()
    ensures most { (was now : RingWords) → length (changes was now) ≤ 10 }
    ensures none { (words : RingWords) → changes words words ≡ [] }
{}

/// Each register of the queues 0 and 1 is found where it stands, and nothing is found elsewhere.
pub fn each_register_is_found()
    ensures first { (r : TransmitRegister) → register_at (offset_of 0 r) ≡ Some (0, r) }
    ensures second { (r : TransmitRegister) → register_at (offset_of 1 r) ≡ Some (1, r) }
    ensures only { (offset queue : ℕ) (r : TransmitRegister) → register_at offset ≡ Some (queue, r) → offset ≡ offset_of queue r }
{}
