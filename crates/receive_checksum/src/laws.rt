//! Laws of what is found. A function here does nothing: its contract is the law.
ghost use Rattle.std.specs.Prelude.{◌≡◌, ◌≢◌, ◌≤◌, ◌<◌, ◌+◌, ◌%◌, ◌++◌, ℕ, List, length};
ghost use Rattle.internet_checksum.specs.Sum.{word_sum, folded, word_at, with_word};
ghost use Rattle.receive_checksum.specs.declared.check.Check.TheVariants.{Good, Bad};
ghost use Rattle.receive_checksum.specs.Checks.{judged, transport_sum, tcp_check, udp_length, udp_check};
ghost use Rattle.receive_checksum.specs.Sent.{ipv4_pseudo, ipv6_pseudo, header_sent, tcp_sent, udp_sent};

/// What is judged of TCP and UDP is the sum of their bytes behind those of the pseudo header, as the standards write it down: of IPv4
/// (RFC 9293, 3.1; RFC 768), and of IPv6 (RFC 8200, 8.1).
pub fn pseudo_headers_are_summed()
    ensures ipv4 { (protocol : ℕ) (addresses bytes : List ℕ) → length addresses % 2 ≡ 0 → length bytes < 65536
        → transport_sum protocol addresses bytes ≡ folded (word_sum (ipv4_pseudo protocol addresses (length bytes) ++ bytes)) }
    ensures ipv6 { (protocol : ℕ) (addresses bytes : List ℕ) → length addresses % 2 ≡ 0 → length bytes < 65536
        → transport_sum protocol addresses bytes ≡ folded (word_sum (ipv6_pseudo protocol addresses (length bytes) ++ bytes)) }
{}

/// What a sender sums by the standards is good, whatever the bytes are: a header of IPv4, TCP, and UDP that tells its own length.
pub fn sent_sums_are_good()
    ensures ip { (header : List ℕ) → 20 ≤ length header → judged (folded (word_sum (header_sent header))) ≡ Good }
    ensures tcp { (addresses bytes : List ℕ) → 20 ≤ length bytes → tcp_check addresses (tcp_sent addresses bytes) ≡ Good }
    ensures udp { (addresses bytes : List ℕ) → 8 ≤ length bytes → udp_length bytes ≡ length bytes
        → udp_check addresses (udp_sent addresses bytes) ≡ Good }
{}

/// What was good is bad once one word of it is another, unless that is 0 in the place of 0xFFFF or the other way round, which count as
/// one in ones' complement: a header of IPv4, and TCP or UDP behind a pseudo header.
pub fn one_changed_word_is_bad()
    ensures ip { (header : List ℕ) (place word : ℕ) → place % 2 ≡ 0 → place + 2 ≤ length header → word < 65536
        → word % 65535 ≢ word_at place header % 65535 → judged (folded (word_sum header)) ≡ Good
        → judged (folded (word_sum (with_word place word header))) ≡ Bad }
    ensures transport { (protocol : ℕ) (addresses bytes : List ℕ) (place word : ℕ) → place % 2 ≡ 0 → place + 2 ≤ length bytes → word < 65536
        → word % 65535 ≢ word_at place bytes % 65535 → judged (transport_sum protocol addresses bytes) ≡ Good
        → judged (transport_sum protocol addresses (with_word place word bytes)) ≡ Bad }
{}
