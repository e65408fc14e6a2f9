//! Frames that virtual functions send, and who gets them.
use super::check::check;
use script_support::short::Case;
use std::test::Fail;

static CASES: [Case; 28] = [
    Case {
        name: "loopback_between_two_pools",
        script: "vfs 8 65536\n\
            @pools\n\
            @receiver 3\n\
            @receiver 5\n\
            pw PFDTXGSWC 1\n\
            @send 5 0200000000030200000000990800.00*46 3c00302900000000\n\
            mr 3 0x1000 16\n",
        output: "1..33 ok\n\
            34 sent !3:1 !5:2\n\
            35 bytes 0000000000000000030004003c000000\n",
    },
    Case {
        name: "a_source_that_is_not_the_pools_own_is_dropped",
        script: "vfs 8 65536\n\
            @pools\n\
            @receiver 2\n\
            pw PFVFSPOOF 0x4\n\
            @send 2 0200000000040200000000990800.00*46 3c00302900000000\n\
            mr 2 0x2008 8\n\
            r 2 VFGPTC\n",
        output: "1..21 ok\n\
            22 dropped !2:2\n\
            23 bytes 3c00302901000000\n\
            24 = 0x00000000\n",
    },
    Case {
        name: "without_loopback_a_frame_goes_to_the_wire",
        script: "vfs 8 65536\n\
            @pools\n\
            @receiver 4\n\
            @receiver 5\n\
            @send 5 0200000000040200000000990800.00*46 3c00302900000000\n\
            r 4 VFGPRC\n",
        output: "1..32 ok\n\
            33 sent !5:2\n\
            34 = 0x00000000\n\
            out 02000000000402000000009908{00*47}\n",
    },
    Case {
        name: "a_reset_drops_the_pending_frame",
        script: "vfs 8 65536\n\
            @pools\n\
            @receiver 6\n\
            @receiver 7\n\
            @send 6 0200000000040200000000990800.00*46 3c00302800000000\n\
            flr 6\n\
            serve 6 0\n\
            pr PFVFLRE0\n\
            r 7 RDLEN0\n",
        output: "1..32 ok\n\
            33 more !6:2\n\
            34 ok\n\
            35 idle\n\
            36 = 0x00000040\n\
            37 = 0x00000080\n",
    },
    Case {
        name: "a_legacy_descriptor_inserts_its_tag",
        script: "vfs 8 65536\n\
            @pools\n\
            @receiver 5\n\
            @send 5 0200000000040200000000990800.00*46 3c00004900000500\n\
            mr 5 0x2008 8\n",
        output: "1..20 ok\n\
            21 sent !5:2\n\
            22 bytes 3c00004901000500\n\
            out 0200000000040200000000998100000508{00*47}\n",
    },
    Case {
        name: "a_transmit_buffer_past_the_memory_is_a_fault",
        script: "vfs 8 65536\n\
            @pools\n\
            @receiver 5\n\
            @sender 5 0200000000040200000000990800.00*46 3c00302900000000\n\
            mw 5 0x2000 ffffffffffffffff\n\
            serve 5 0\n\
            r 5 TXDCTL0\n\
            r 5 TDH0\n",
        output: "1..21 ok\n\
            22 faulted\n\
            23 = 0x00000000\n\
            24 = 0x00000000\n",
    },
    Case {
        name: "a_frame_too_long_in_two_descriptors_is_dropped",
        script: "vfs 8 65536\n\
            @pools\n\
            @receiver 5\n\
            mw 5 0x6000 0200000000040200000000990800.00*986\n\
            mw 5 0x2000 0060000000000000.e803302800000000.0070000000000000.5802302900000000\n\
            w 5 TDBAL0 0x2000\n\
            w 5 TDLEN0 128\n\
            w 5 TXDCTL0 0x02000000\n\
            w 5 TDT0 2\n\
            serve 5 0\n\
            serve 5 0\n",
        output: "1..20 ok\n\
            21 more !5:2\n\
            22 dropped\n",
    },
    Case {
        name: "a_pool_that_may_not_transmit_is_idle",
        script: "vfs 8 65536\n\
            @pools\n\
            @receiver 5\n\
            mw 5 0x6000 0200000000040200000000990800.00*986\n\
            mw 5 0x2000 0060000000000000.e803302800000000.0070000000000000.5802302900000000\n\
            w 5 TDBAL0 0x2000\n\
            w 5 TDLEN0 128\n\
            w 5 TXDCTL0 0x02000000\n\
            w 5 TDT0 2\n\
            pw PFVFTE 0\n\
            serve 5 0\n\
            serve 5 0\n\
            serve 6 0\n",
        output: "1..21 ok\n\
            22 idle\n\
            23 idle\n\
            24 refused 2\n",
    },
    Case {
        name: "loopback_broadcast_goes_to_all_and_the_wire",
        script: "vfs 8 65536\n\
            @pools\n\
            @receiver 3\n\
            @receiver 4\n\
            @receiver 5\n\
            pw VMOLR+4*3 0x08000000\n\
            pw VMOLR+4*4 0x08000000\n\
            pw VMOLR+4*5 0x08000000\n\
            pw PFDTXGSWC 1\n\
            @send 5 ffffffffffff0200000000990800.00*46 3c00302900000000\n",
        output: "1..48 ok\n\
            49 sent !3:1 !4:1 !5:2\n\
            out ffffffffffff02000000009908{00*47}\n",
    },
    Case {
        name: "an_address_that_is_held_keeps_a_frame_from_the_wire",
        script: "vfs 8 65536\n\
            @pools\n\
            @receiver 4\n\
            @receiver 5\n\
            pw PFDTXGSWC 1\n\
            pw VLNCTRL 0x40000000\n\
            @send 5 0200000000040200000000990800.00*46 3c00302900000000\n\
            r 4 VFGPRC\n",
        output: "1..34 ok\n\
            35 sent !5:2\n\
            36 = 0x00000000\n",
    },
    Case {
        name: "the_default_pool_takes_wire_frames_alone",
        script: "vfs 8 65536\n\
            @pools\n\
            @receiver 5\n\
            @receiver 6\n\
            pw PF_VT_CTL 0x300\n\
            pw PFDTXGSWC 1\n\
            @send 5 0200000000770200000000990800.00*46 3c00302900000000\n\
            pr PF_VT_CTL\n\
            wire 0200000000770200000000990800.00*46\n",
        output: "1..34 ok\n\
            35 sent !5:2\n\
            36 = 0x40000301\n\
            37 ok !6:1\n\
            out 02000000007702000000009908{00*47}\n",
    },
    Case {
        name: "reset_flags_show_and_clear",
        script: "vfs 8 65536\n\
            @pools\n\
            @receiver 6\n\
            @receiver 7\n\
            @send 6 0200000000040200000000990800.00*46 3c00302800000000\n\
            flr 6\n\
            serve 6 0\n\
            pr PFVFLRE0\n\
            r 7 RDLEN0\n\
            pw PFVFLREC 0x40\n\
            pr PFVFLRE0\n",
        output: "1..32 ok\n\
            33 more !6:2\n\
            34 ok\n\
            35 idle\n\
            36 = 0x00000040\n\
            37 = 0x00000080\n\
            38 ok\n\
            39 = 0x00000000\n",
    },
    Case {
        name: "a_reset_by_the_function_and_of_the_device",
        script: "vfs 8 65536\n\
            @pools\n\
            @receiver 5\n\
            @send 5 0200000000040200000000990800.00*46 3c00302900000000\n\
            w 5 VFCTRL 0x04000000\n\
            pr PFVFLRE0\n\
            r 5 VFGPTC\n\
            r 5 TDLEN0\n\
            mr 5 0x2008 8\n\
            preset\n\
            r 5 VFLINKS\n\
            pr RAL+8*5\n\
            pr PF_VT_CTL\n",
        output: "1..20 ok\n\
            21 sent !5:2\n\
            22 ok\n\
            23 = 0x00000000\n\
            24 = 0x00000000\n\
            25 = 0x00000000\n\
            26 bytes 3c00302901000000\n\
            27 ok\n\
            28 refused 2\n\
            29 = 0x00000000\n\
            30 = 0x60000001\n\
            out 02000000000402000000009908{00*47}\n",
    },
    Case {
        name: "no_bytes_at_the_end_of_the_memory_are_no_frame",
        script: "vfs 8 65536\n\
            @pools\n\
            @receiver 5\n\
            @sender 5 0200000000040200000000990800.00*46 0000302900000000\n\
            mw 5 0x2000 0000010000000000\n\
            serve 5 0\n",
        output: "1..21 ok\n\
            22 dropped !5:2\n",
    },
    Case {
        name: "no_bytes_past_the_end_of_the_memory_are_a_fault",
        script: "vfs 8 65536\n\
            @pools\n\
            @receiver 5\n\
            @sender 5 0200000000040200000000990800.00*46 0000302900000000\n\
            mw 5 0x2000 0100010000000000\n\
            serve 5 0\n",
        output: "1..21 ok\n\
            22 faulted\n",
    },
    Case {
        name: "an_unknown_descriptor_type_is_a_fault",
        script: "vfs 8 65536\n\
            @pools\n\
            @receiver 5\n\
            @send 5 0200000000040200000000990800.00*46 3c00102900000000\n",
        output: "1..20 ok\n\
            21 faulted\n",
    },
    Case {
        name: "segmentation_is_a_fault",
        script: "vfs 8 65536\n\
            @pools\n\
            @receiver 5\n\
            @send 5 0200000000040200000000990800.00*46 3c0030a900000000\n",
        output: "1..20 ok\n\
            21 faulted\n",
    },
    Case {
        name: "insertion_by_an_advanced_descriptor_is_a_fault",
        script: "vfs 8 65536\n\
            @pools\n\
            @receiver 5\n\
            @send 5 0200000000040200000000990800.00*46 3c00306900000000\n",
        output: "1..20 ok\n\
            21 faulted\n",
    },
    Case {
        name: "a_context_descriptor_is_passed_over",
        script: "vfs 8 65536\n\
            @pools\n\
            @receiver 5\n\
            @send 5 0200000000040200000000990800.00*46 3c00202900000000\n\
            mr 5 0x2008 8\n\
            r 5 TDH0\n",
        output: "1..20 ok\n\
            21 more\n\
            22 bytes 3c00202900000000\n\
            23 = 0x00000001\n",
    },
    Case {
        name: "a_frame_may_be_its_own_descriptor",
        script: "vfs 8 65536\n\
            @pools\n\
            @receiver 5\n\
            @sender 5 0200000000040200000000990800.00*46 1000302900000000\n\
            mw 5 0x2000 0020000000000000\n\
            serve 5 0\n\
            mr 5 0x2008 8\n",
        output: "1..21 ok\n\
            22 sent !5:2\n\
            23 bytes 1000302901000000\n\
            out 00200000000000001000302900000000\n",
    },
    Case {
        name: "the_port_tag_is_inserted",
        script: "vfs 8 65536\n\
            @pools\n\
            @receiver 5\n\
            pw VMVIR+4*5 0x40000064\n\
            @send 5 0200000000040200000000990800.00*46 3c00302900000000\n",
        output: "1..21 ok\n\
            22 sent !5:2\n\
            out 0200000000040200000000998100006408{00*47}\n",
    },
    Case {
        name: "the_port_forbids_insertion",
        script: "vfs 8 65536\n\
            @pools\n\
            @receiver 5\n\
            pw VMVIR+4*5 0x80000000\n\
            @send 5 0200000000040200000000990800.00*46 3c00004900000500\n",
        output: "1..21 ok\n\
            22 sent !5:2\n\
            out 02000000000402000000009908{00*47}\n",
    },
    Case {
        name: "a_tagged_frame_under_a_port_tag_is_dropped",
        script: "vfs 8 65536\n\
            @pools\n\
            @receiver 5\n\
            pw VMVIR+4*5 0x40000064\n\
            @send 5 020000000004020000000099810000050800.00*46 4000302900000000\n\
            r 5 VFGPTC\n",
        output: "1..21 ok\n\
            22 dropped !5:2\n\
            23 = 0x00000000\n",
    },
    Case {
        name: "the_vlan_check_sees_the_port_tag",
        script: "vfs 8 65536\n\
            @pools\n\
            @receiver 5\n\
            pw VMVIR+4*5 0x40000064\n\
            pw PFVFSPOOF 0x2000\n\
            @send 5 0200000000040200000000990800.00*46 3c00302900000000\n",
        output: "1..22 ok\n\
            23 dropped !5:2\n",
    },
    Case {
        name: "the_port_tag_is_a_member",
        script: "vfs 8 65536\n\
            @pools\n\
            @receiver 5\n\
            pw VMVIR+4*5 0x40000064\n\
            pw PFVFSPOOF 0x2000\n\
            pw VLVF 0x80000064\n\
            pw VLVFB 0x20\n\
            pw VFTA+4*3 0x10\n\
            @send 5 0200000000040200000000990800.00*46 3c00302900000000\n",
        output: "1..25 ok\n\
            26 sent !5:2\n\
            out 0200000000040200000000998100006408{00*47}\n",
    },
    Case {
        name: "the_longest_frame_under_a_port_tag",
        script: "vfs 8 65536\n\
            @pools\n\
            @receiver 5\n\
            pw VMVIR+4*5 0x40000064\n\
            @send 5 0200000000040200000000990800.00*1500 ea05302900000000\n",
        output: "1..21 ok\n\
            22 sent !5:2\n\
            out 0200000000040200000000998100006408{00*1501}\n",
    },
    Case {
        name: "one_byte_more_under_a_port_tag",
        script: "vfs 8 65536\n\
            @pools\n\
            @receiver 5\n\
            pw VMVIR+4*5 0x40000064\n\
            @send 5 0200000000040200000000990800.00*1501 eb05302900000000\n",
        output: "1..21 ok\n\
            22 dropped !5:2\n",
    },
    Case {
        name: "a_long_frame_in_two_descriptors",
        script: "vfs 8 65536 9018\n\
            @pools\n\
            @receiver 5\n\
            mw 5 0x6000 0200000000040200000000990800.00*986\n\
            mw 5 0x2000 0060000000000000.e803302800000000.0070000000000000.5802302900000000\n\
            w 5 TDBAL0 0x2000\n\
            w 5 TDLEN0 128\n\
            w 5 TXDCTL0 0x02000000\n\
            w 5 TDT0 2\n\
            serve 5 0\n\
            serve 5 0\n",
        output: "1..20 ok\n\
            21 more !5:2\n\
            22 sent\n\
            out 02000000000402000000009908{00*1587}\n",
    },
];

#[test]
fn frames_of_functions_are_sent(rt: HostRuntime) -> Result<(), Fail> {
    check(&rt, &CASES)
}
