//! Laws of the sum. A function here does nothing: its contract is the law.
ghost use Rattle.std.specs.Prelude.{◌≡◌, ◌≤◌, ◌<◌, ◌+◌, ◌-◌, ◌%◌, ◌++◌, ℕ, List, length};
ghost use Rattle.internet_checksum.specs.Sum.{word_sum, folded, checksum, never_zero, word_at, with_word};

/// Bytes can be summed in parts, each but the last of an even length: the sum of the first part is what the next one starts from.
pub fn parts_sum_to_the_whole()
    ensures words { (first second : List ℕ) → length first % 2 ≡ 0 → word_sum (first ++ second) ≡ word_sum first + word_sum second }
    ensures folded { (m n : ℕ) → folded (folded m + n) ≡ folded (m + n) }
{}

/// With their checksum stored at an even place among them, all bytes sum to 0xFFFF together with what stood there, which the
/// checksum covered: 0, or the part of the sum that is not among the bytes. The same holds of the checksum that is never 0.
pub fn stored_checksum_verifies()
    ensures plain { (place : ℕ) (bytes : List ℕ) → place % 2 ≡ 0 → place + 2 ≤ length bytes
        → folded (word_at place bytes + word_sum (with_word place (checksum bytes) bytes)) ≡ 65535 }
    ensures never_zero { (place : ℕ) (bytes : List ℕ) → place % 2 ≡ 0 → place + 2 ≤ length bytes
        → folded (word_at place bytes + word_sum (with_word place (never_zero (checksum bytes)) bytes)) ≡ 65535 }
{}
