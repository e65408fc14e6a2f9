//! Frames that come from the wire, and what becomes of them.
use super::check::check;
use script_support::short::Case;
use std::test::Fail;

static CASES: [Case; 26] = [
    Case {
        name: "a_frame_reaches_the_address_that_holds_it",
        script: "vfs 8 65536\n\
            @pools\n\
            @receiver 3\n\
            wire 0200000000030200000000990800.00*46\n\
            mr 3 0x1000 16\n\
            r 3 VFGPRC\n\
            r 3 RDH0\n",
        output: "1..14 ok\n\
            15 ok !3:1\n\
            16 bytes 0000000000000000030000003c000000\n\
            17 = 0x00000001\n\
            18 = 0x00000001\n",
    },
    Case {
        name: "multicast_and_broadcast_by_pool_flags",
        script: "vfs 8 65536\n\
            @pools\n\
            @receiver 3\n\
            @receiver 4\n\
            pw VMOLR+4*3 0x08000000\n\
            pw VMOLR+4*4 0x08000000\n\
            w 3 RDT0 0\n\
            wire ff*6.0200000000990800.00*46\n\
            r 3 VFGPRC\n\
            r 4 VFGPRC\n",
        output: "1..29 ok\n\
            30 ok !4:1\n\
            31 = 0x00000000\n\
            32 = 0x00000001\n",
    },
    Case {
        name: "a_frame_in_two_pieces_wraps_round_the_ring",
        script: "vfs 8 65536\n\
            @pools\n\
            @receiver 3\n\
            @wrap 1 0050000000000000\n\
            wire 0200000000030200000000990800.00*1504\n\
            mr 3 0x1078 8\n\
            mr 3 0x1008 8\n\
            r 3 RDH0\n",
        output: "1..21 ok\n\
            22 ok !3:1\n\
            23 bytes 0100000000040000\n\
            24 bytes 03000000ee010000\n\
            25 = 0x00000001\n",
    },
    Case {
        name: "too_few_descriptors_drop_the_frame",
        script: "vfs 8 65536\n\
            @pools\n\
            @receiver 3\n\
            @wrap 0 0050000000000000\n\
            wire 0200000000030200000000990800.00*1504\n\
            mr 3 0x1078 8\n\
            mr 3 0x1008 8\n\
            r 3 RDH0\n\
            r 3 VFGPRC\n",
        output: "1..22 ok\n\
            23 bytes 0000000000000000\n\
            24 bytes 0000000000000000\n\
            25 = 0x00000007\n\
            26 = 0x00000000\n",
    },
    Case {
        name: "a_buffer_past_the_memory_stops_the_queue",
        script: "vfs 8 65536\n\
            @pools\n\
            @receiver 3\n\
            @wrap 1 13fe000000000000\n\
            wire 0200000000030200000000990800.00*1504\n\
            mr 3 0x1078 8\n\
            mr 3 0x1008 8\n\
            r 3 RDH0\n\
            r 3 RXDCTL0\n\
            mr 3 0x1070 8\n",
        output: "1..22 ok\n\
            23 bytes 0000000000000000\n\
            24 bytes 0000000000000000\n\
            25 = 0x00000007\n\
            26 = 0x00000000\n\
            27 bytes 0040000000000000\n",
    },
    Case {
        name: "a_buffer_that_ends_with_the_memory_is_good",
        script: "vfs 8 65536\n\
            @pools\n\
            @receiver 3\n\
            @wrap 1 12fe000000000000\n\
            wire 0200000000030200000000990800.00*1504\n\
            mr 3 0x1078 8\n\
            mr 3 0x1008 8\n\
            r 3 RDH0\n\
            r 3 RXDCTL0\n\
            mr 3 0x1070 8\n",
        output: "1..21 ok\n\
            22 ok !3:1\n\
            23 bytes 0100000000040000\n\
            24 bytes 03000000ee010000\n\
            25 = 0x00000001\n\
            26 = 0x02000000\n\
            27 bytes 0000000000000000\n",
    },
    Case {
        name: "multicast_by_hash",
        script: "vfs 8 65536\n\
            @pools\n\
            @receiver 1\n\
            @receiver 2\n\
            pw MCSTCTRL 4\n\
            pw MTA+4*125 0x10000\n\
            pw VMOLR+4*1 0x02000000\n\
            wire 01005e0000fb.0200000000990800.00*46\n",
        output: "1..29 ok\n\
            30 ok !1:1\n",
    },
    Case {
        name: "pools_of_two_equal_addresses_are_united",
        script: "vfs 8 65536\n\
            @pools\n\
            @receiver 1\n\
            @receiver 2\n\
            pw RAL 0x2\n\
            pw RAH 0x80007700\n\
            pw MPSAR 0x2\n\
            pw RAL+8*127 0x2\n\
            pw RAH+8*127 0x80007700\n\
            pw MPSAR+8*127 0x4\n\
            wire 0200000000770200000000990800.00*46\n",
        output: "1..32 ok\n\
            33 ok !1:1 !2:1\n",
    },
    Case {
        name: "default_pool_takes_unmatched",
        script: "vfs 8 65536\n\
            @pools\n\
            @receiver 1\n\
            @receiver 6\n\
            pw VLNCTRL 0x40000000\n\
            pw VLVF 0x80000064\n\
            pw VLVFB 0x2\n\
            pw PF_VT_CTL 0x300\n\
            wire 020000000001020000000099810000640800.00*42\n\
            pw VFTA+4*3 0x10\n\
            wire 020000000001020000000099810000640800.00*42\n",
        output: "1..30 ok\n\
            31 ok !6:1\n\
            32 ok\n\
            33 ok !1:1\n",
    },
    Case {
        name: "a_tag_is_stripped",
        script: "vfs 8 65536\n\
            @pools\n\
            @receiver 3\n\
            w 3 RXDCTL0 0x42000000\n\
            wire 020000000003020000000099810000640800.00*42\n\
            mr 3 0x1008 8\n",
        output: "1..15 ok\n\
            16 ok !3:1\n\
            17 bytes 0b00000038006400\n",
    },
    Case {
        name: "a_buffer_may_lie_over_its_ring",
        script: "vfs 8 65536\n\
            @pools\n\
            @receiver 3\n\
            mw 3 0x1000 0010000000000000\n\
            wire 0200000000030200000000990800.aa*46\n\
            mr 3 0x1000 20\n",
        output: "1..15 ok\n\
            16 ok !3:1\n\
            17 bytes 0000000000000000030000003c000000aaaaaaaa\n",
    },
    Case {
        name: "hash_shift_0",
        script: "vfs 8 65536\n\
            @pools\n\
            @receiver 1\n\
            pw VMOLR+4*1 0x02000000\n\
            pw MCSTCTRL 4\n\
            pw MTA+4*1 0x20000\n\
            wire 01005e001203.0200000000990800.00*46\n",
        output: "1..17 ok\n\
            18 ok !1:1\n",
    },
    Case {
        name: "hash_shift_1",
        script: "vfs 8 65536\n\
            @pools\n\
            @receiver 1\n\
            pw VMOLR+4*1 0x02000000\n\
            pw MCSTCTRL 5\n\
            pw MTA+4*3 0x4\n\
            wire 01005e001203.0200000000990800.00*46\n",
        output: "1..17 ok\n\
            18 ok !1:1\n",
    },
    Case {
        name: "hash_shift_2",
        script: "vfs 8 65536\n\
            @pools\n\
            @receiver 1\n\
            pw VMOLR+4*1 0x02000000\n\
            pw MCSTCTRL 6\n\
            pw MTA+4*6 0x10\n\
            wire 01005e001203.0200000000990800.00*46\n",
        output: "1..17 ok\n\
            18 ok !1:1\n",
    },
    Case {
        name: "hash_shift_3",
        script: "vfs 8 65536\n\
            @pools\n\
            @receiver 1\n\
            pw VMOLR+4*1 0x02000000\n\
            pw MCSTCTRL 7\n\
            pw MTA+4*24 0x40000\n\
            wire 01005e001203.0200000000990800.00*46\n",
        output: "1..17 ok\n\
            18 ok !1:1\n",
    },
    Case {
        name: "hash_shift_0_without_its_filter",
        script: "vfs 8 65536\n\
            @pools\n\
            @receiver 1\n\
            pw VMOLR+4*1 0x02000000\n\
            pw MCSTCTRL 0\n\
            pw MTA+4*1 0x20000\n\
            wire 01005e001203.0200000000990800.00*46\n",
        output: "1..18 ok\n",
    },
    Case {
        name: "hash_shift_1_without_its_filter",
        script: "vfs 8 65536\n\
            @pools\n\
            @receiver 1\n\
            pw VMOLR+4*1 0x02000000\n\
            pw MCSTCTRL 1\n\
            pw MTA+4*3 0x4\n\
            wire 01005e001203.0200000000990800.00*46\n",
        output: "1..18 ok\n",
    },
    Case {
        name: "hash_shift_2_without_its_filter",
        script: "vfs 8 65536\n\
            @pools\n\
            @receiver 1\n\
            pw VMOLR+4*1 0x02000000\n\
            pw MCSTCTRL 2\n\
            pw MTA+4*6 0x10\n\
            wire 01005e001203.0200000000990800.00*46\n",
        output: "1..18 ok\n",
    },
    Case {
        name: "hash_shift_3_without_its_filter",
        script: "vfs 8 65536\n\
            @pools\n\
            @receiver 1\n\
            pw VMOLR+4*1 0x02000000\n\
            pw MCSTCTRL 3\n\
            pw MTA+4*24 0x40000\n\
            wire 01005e001203.0200000000990800.00*46\n",
        output: "1..18 ok\n",
    },
    Case {
        name: "two_entries_of_one_vlan_and_untagged_frames",
        script: "vfs 8 65536\n\
            @pools\n\
            @receiver 1\n\
            @receiver 2\n\
            pw VLNCTRL 0x40000000\n\
            pw VLVF 0x80000064\n\
            pw VLVFB 0x2\n\
            pw VLVF+4*1 0x80000064\n\
            pw VLVFB+8*1 0x4\n\
            pw VFTA+4*3 0x10\n\
            wire 020000000001020000000099810000640800.00*42\n\
            wire 0200000000020200000000990800.00*46\n\
            wire 020000000002020000000099810000640800.00*42\n",
        output: "1..32 ok\n\
            33 ok !1:1\n\
            34 ok\n\
            35 ok !2:1\n",
    },
    Case {
        name: "an_address_that_is_made_valid_again",
        script: "vfs 8 65536\n\
            @pools\n\
            @receiver 1\n\
            @receiver 2\n\
            pw RAL 0x2\n\
            pw RAH 0x80007700\n\
            pw MPSAR 0x2\n\
            pw RAL+8*127 0x2\n\
            pw RAH+8*127 0x80007700\n\
            pw MPSAR+8*127 0x4\n\
            pw RAH+8*127 0x00007700\n\
            wire 0200000000770200000000990800.00*46\n\
            pw RAH+8*127 0x80007700\n\
            wire 0200000000770200000000990800.00*46\n",
        output: "1..33 ok\n\
            34 ok !1:1\n\
            35 ok\n\
            36 ok !2:1\n",
    },
    Case {
        name: "a_vlan_that_is_made_valid_again",
        script: "vfs 8 65536\n\
            @pools\n\
            @receiver 1\n\
            @receiver 2\n\
            pw VLNCTRL 0x40000000\n\
            pw VLVF 0x80000064\n\
            pw VLVFB 0x2\n\
            pw VLVF+4*1 0x80000064\n\
            pw VLVFB+8*1 0x4\n\
            pw VFTA+4*3 0x10\n\
            pw VFTA+4*3 0\n\
            wire 020000000001020000000099810000640800.00*42\n\
            wire 0200000000020200000000990800.00*46\n\
            pw VFTA+4*3 0x10\n\
            wire 020000000002020000000099810000640800.00*42\n",
        output: "1..36 ok\n\
            37 ok !2:1\n",
    },
    Case {
        name: "a_buffer_address_near_2_to_64_stops_the_queue",
        script: "vfs 8 65536\n\
            @pools\n\
            @receiver 3\n\
            mw 3 0x1000 ffffffffffffffff\n\
            wire 0200000000030200000000990800.00*46\n\
            r 3 RXDCTL0\n\
            r 3 VFGPRC\n",
        output: "1..16 ok\n\
            17 = 0x00000000\n\
            18 = 0x00000000\n",
    },
    Case {
        name: "a_later_write_back_lands_over_an_earlier_one",
        script: "vfs 8 65536\n\
            @pools\n\
            @receiver 3\n\
            w 3 RXDCTL0 0\n\
            w 3 SRRCTL0 0x02000001\n\
            w 3 RDT0 2\n\
            mw 3 0x1000 1010000000000000.00*8.0050000000000000\n\
            w 3 RXDCTL0 0x02000000\n\
            wire 0200000000030200000000990800.aa*1504\n\
            mr 3 0x1000 36\n\
            mr 3 0x5000 2\n",
        output: "1..19 ok\n\
            20 ok !3:1\n\
            21 bytes 00000000000000000100000000040000000000000000000003000000ee010000aaaaaaaa\n\
            22 bytes aaaa\n",
    },
    Case {
        name: "a_jumbo_frame_in_nine_pieces",
        script: "vfs 8 65536 9018\n\
            @pools\n\
            @receiver 3\n\
            w 3 RXDCTL0 0\n\
            w 3 RDLEN0 256\n\
            w 3 SRRCTL0 0x02000001\n\
            w 3 RDT0 9\n\
            mw 3 0x1000 0040000000000000.0000000000000000.0044000000000000.0000000000000000.0048000000000000.0000000000000000.004c000000000000.0000000000000000.0050000000000000.0000000000000000.0054000000000000.0000000000000000.0058000000000000.0000000000000000.005c000000000000.0000000000000000.0060000000000000.0000000000000000\n\
            w 3 RXDCTL0 0x02000000\n\
            wire 0200000000030200000000990800.00*9004\n\
            mr 3 0x1078 8\n\
            mr 3 0x1088 8\n\
            r 3 RDH0\n",
        output: "1..20 ok\n\
            21 ok !3:1\n\
            22 bytes 0100000000040000\n\
            23 bytes 030000003a030000\n\
            24 = 0x00000009\n",
    },
    Case {
        name: "a_jumbo_frame_needs_nine_descriptors",
        script: "vfs 8 65536 9018\n\
            @pools\n\
            @receiver 3\n\
            w 3 RXDCTL0 0\n\
            w 3 RDLEN0 256\n\
            w 3 SRRCTL0 0x02000001\n\
            w 3 RDT0 8\n\
            mw 3 0x1000 0040000000000000.0000000000000000.0044000000000000.0000000000000000.0048000000000000.0000000000000000.004c000000000000.0000000000000000.0050000000000000.0000000000000000.0054000000000000.0000000000000000.0058000000000000.0000000000000000.005c000000000000.0000000000000000.0060000000000000.0000000000000000\n\
            w 3 RXDCTL0 0x02000000\n\
            wire 0200000000030200000000990800.00*9004\n\
            mr 3 0x1078 8\n\
            mr 3 0x1088 8\n\
            r 3 RDH0\n",
        output: "1..21 ok\n\
            22 bytes 0000000000000000\n\
            23 bytes 0000000000000000\n\
            24 = 0x00000000\n",
    },
];

#[test]
fn frames_from_the_wire_are_received(rt: HostRuntime) -> Result<(), Fail> {
    check(&rt, &CASES)
}
