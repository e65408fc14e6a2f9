//! Laws of sums and segments. A function here does nothing: its contract is the law.
ghost use Rattle.std.specs.Prelude.{◌≡◌, ◌+◌, ◌<◌, ◌++◌, ℕ, List, length, drop, true, None};
ghost use Rattle.std.specs.List.{flat_map, range_with_len};
ghost use Rattle.internet_checksum.specs.Sum.{word_sum, folded, word_at};
ghost use Rattle.offload.specs.declared.context.Context.{Context};
ghost use Rattle.offload.specs.declared.context.Ip.{Ip};
ghost use Rattle.offload.specs.declared.context.Transport.{Transport};
ghost use Rattle.offload.specs.declared.sums.Sums.{Sums};
ghost use Rattle.offload.specs.declared.context.Ip.TheVariants.{V4};
ghost use Rattle.offload.specs.declared.context.Transport.TheVariants.{Tcp, Udp};
ghost use Rattle.offload.specs.Context.{transport_at, payload_at};
ghost use Rattle.offload.specs.Sums.{refusal, summed, ip_header};
ghost use Rattle.offload.specs.Cut.{IsCut, segment_count};
ghost use Rattle.offload.specs.Segment.{segment_of, pseudo_of};

/// Each sum that was asked for verifies, where nothing was against it: the words of the IPv4 header come to 0xFFFF, and so do those of all
/// behind it, together with the partial sum that stood in the field.
pub fn sums_verify()
    ensures ip { (c : Context) (sums : Sums) (frame : List ℕ) → refusal c sums (length frame) ≡ None → sums.ip ≡ true
        → folded (word_sum (ip_header c (summed c sums frame))) ≡ 65535 }
    ensures tcp { (c : Context) (sums : Sums) (frame : List ℕ) → refusal c sums (length frame) ≡ None → sums.transport ≡ true → c.transport ≡ Tcp
        → folded (word_at (transport_at c + 16) frame + word_sum (drop (transport_at c) (summed c sums frame))) ≡ 65535 }
    ensures udp { (c : Context) (sums : Sums) (frame : List ℕ) → refusal c sums (length frame) ≡ None → sums.transport ≡ true → c.transport ≡ Udp
        → folded (word_at (transport_at c + 6) frame + word_sum (drop (transport_at c) (summed c sums frame))) ≡ 65535 }
{}

/// The sums of each segment verify, whatever stood in their fields: that of the IPv4 header, and that of TCP with its pseudo header, as
/// whoever receives the segment makes it.
pub fn segments_verify()
    ensures ip { (c : Context) (frame : List ℕ) (n : ℕ) → IsCut c (length frame) → c.ip ≡ V4
        → folded (word_sum (ip_header c (segment_of c frame n))) ≡ 65535 }
    ensures tcp { (c : Context) (frame : List ℕ) (n : ℕ) → IsCut c (length frame)
        → folded (word_sum (pseudo_of c (segment_of c frame n) ++ drop (transport_at c) (segment_of c frame n))) ≡ 65535 }
{}

/// What stands behind the headers of all segments, one after the other, is what stands behind those of the frame: no byte is lost,
/// doubled or moved.
pub fn payload_is_whole()
    ensures { (c : Context) (frame : List ℕ) → IsCut c (length frame)
        → flat_map (λ n. drop (payload_at c) (segment_of c frame n)) (range_with_len 0 (segment_count c (length frame))) ≡ drop (payload_at c) frame }
{}
