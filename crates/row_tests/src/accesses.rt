//! Registers, memory, interrupts, opening and refusals.
use super::check::check;
use script_support::short::Case;
use std::test::Fail;

static CASES: [Case; 15] = [
    Case {
        name: "opening_clears_the_memory",
        script: "vfs 8 65536\n\
            open 3\n\
            mw 3 0 aa\n\
            end 3\n\
            open 3\n\
            mr 3 0 1\n",
        output: "1..4 ok\n\
            5 bytes 00\n",
    },
    Case {
        name: "a_message_clears_its_cause",
        script: "vfs 8 65536\n\
            open 0\n\
            w 0 VTEICS 1\n\
            w 0 VTEIAC 1\n\
            w 0 VTEIMS 1\n\
            r 0 VTEICR\n",
        output: "1..3 ok\n\
            4 ok !0:1\n\
            5 = 0x00000000\n",
    },
    Case {
        name: "refusals",
        script: "vfs 8 65536\n\
            r 8 0\n\
            r 0 VFLINKS\n\
            open 0\n\
            open 0\n\
            r 0 0x4000\n\
            r 0 0x101\n\
            mr 0 65535 2\n\
            mr 0 0 2049\n\
            pr 0x20000\n",
        output: "1 refused 1\n\
            2 refused 2\n\
            3 ok\n\
            4 refused 7\n\
            5 refused 3\n\
            6 refused 3\n\
            7 refused 4\n\
            8 refused 5\n\
            9 refused 3\n",
    },
    Case {
        name: "a_ring_of_4096_and_a_tail_past_it",
        script: "vfs 1 131072\n\
            open 0\n\
            w 0 RDBAL0 0\n\
            w 0 RDLEN0 65536\n\
            w 0 SRRCTL0 0x02000002\n\
            w 0 RDT0 4095\n\
            w 0 RXDCTL0 0x02000000\n\
            w 0 RDT0 4096\n\
            r 0 RDT0\n\
            r 0 RXDCTL0\n",
        output: "1..7 ok\n\
            8 = 0x00000fff\n\
            9 = 0x02000000\n",
    },
    Case {
        name: "a_ring_of_more_than_4096_stays_off",
        script: "vfs 1 131072\n\
            open 0\n\
            w 0 RDBAL0 0\n\
            w 0 RDLEN0 65664\n\
            w 0 SRRCTL0 0x02000002\n\
            w 0 RDT0 4095\n\
            w 0 RXDCTL0 0x02000000\n\
            w 0 RDT0 4096\n\
            r 0 RDT0\n\
            r 0 RXDCTL0\n",
        output: "1..7 ok\n\
            8 = 0x00001000\n\
            9 = 0x00000000\n",
    },
    Case {
        name: "first_readings",
        script: "vfs 8 65536\n\
            open 0\n\
            pr PF_VT_CTL\n\
            r 0 VFLINKS\n\
            r 0 SRRCTL0\n",
        output: "1 ok\n\
            2 = 0x60000001\n\
            3 = 0x70000000\n\
            4 = 0x10000000\n",
    },
    Case {
        name: "events_after_go",
        script: "vfs 2 65536\n\
            open 0\n\
            open 1\n\
            go\n\
            r 0 VFLINKS\n\
            r 1 VFLINKS\n\
            r 1 VFLINKS\n\
            wire 0200000000000200000000990800.00*46\n\
            pr PF_VT_CTL\n",
        output: "1..2 ok\n\
            3 = 0x70000000\n\
            4 = 0x70000000\n\
            5 = 0x70000000\n\
            6 ok\n\
            7 = 0x60000001\n",
    },
    Case {
        name: "causes_masks_and_auto_clear",
        script: "vfs 8 65536\n\
            open 0\n\
            w 0 VTEIMS 2\n\
            w 0 VTEICS 3\n\
            r 0 VTEICR\n\
            w 0 VTEICS 1\n\
            w 0 VTEIAC 1\n\
            w 0 VTEIMS 1\n\
            r 0 VTEICR\n\
            w 0 VTEIMS 1\n\
            w 0 VTEIMC 2\n\
            r 0 VTEIMS\n\
            w 0 VTEICS 7\n\
            r 0 VTEICR\n",
        output: "1..2 ok\n\
            3 ok !0:2\n\
            4 = 0x00000003\n\
            5..6 ok\n\
            7 ok !0:1\n\
            8 = 0x00000000\n\
            9..10 ok\n\
            11 = 0x00000001\n\
            12 ok !0:1\n\
            13 = 0x00000006\n",
    },
    Case {
        name: "a_ring_past_the_memory_stays_off",
        script: "vfs 8 65536\n\
            open 0\n\
            w 0 RDBAH0 0xffffffff\n\
            w 0 RDBAL0 0xffffff80\n\
            w 0 RDLEN0 128\n\
            w 0 SRRCTL0 0x02000002\n\
            w 0 RXDCTL0 0x02000000\n\
            r 0 RXDCTL0\n",
        output: "1..6 ok\n\
            7 = 0x00000000\n",
    },
    Case {
        name: "the_port_vlan_register",
        script: "vfs 8 65536\n\
            pw VMVIR+4*5 0xffffffff\n\
            pr VMVIR+4*5\n",
        output: "1 ok\n\
            2 = 0xc000ffff\n",
    },
    Case {
        name: "refusals_of_accesses_in_order",
        script: "vfs 1 4096\n\
            mr 0 0xffffffffffffffff 65535\n\
            open 0\n\
            mr 0 0xffffffffffffffff 65535\n\
            mr 0 0xffffffffffffffff 2048\n\
            mr 0 2048 2049\n\
            r 0 0x4001\n\
            open 0\n",
        output: "1 refused 2\n\
            2 ok\n\
            3 refused 5\n\
            4 refused 4\n\
            5 refused 5\n\
            6 refused 3\n\
            7 refused 7\n",
    },
    Case {
        name: "refusals_of_events_in_order",
        script: "vfs 1 4096\n\
            end 0\n\
            flr 0\n\
            serve 0 0\n\
            open 1\n\
            end 1\n\
            flr 1\n\
            serve 1 1\n\
            pw PFVFTE 1\n\
            open 0\n\
            serve 0 1\n\
            end 0\n\
            end 0\n\
            serve 0 0\n",
        output: "1 refused 2\n\
            2 refused 2\n\
            3 refused 2\n\
            4 refused 1\n\
            5 refused 1\n\
            6 refused 1\n\
            7 refused 1\n\
            8..9 ok\n\
            10 idle\n\
            11 ok\n\
            12 refused 2\n\
            13 refused 2\n",
    },
    Case {
        name: "the_greatest_numbers",
        script: "vfs 1 4096\n\
            open 255\n\
            r 255 4294967295\n\
            w 255 0xffffffff 0xffffffff\n\
            mr 255 0xffffffffffffffff 65535\n\
            mr 255 18446744073709551615 0\n\
            pr 0xffffffff\n\
            pw 4294967295 4294967295\n\
            pw 0x1fffc 1\n\
            pr 0x1fffc\n",
        output: "1 refused 1\n\
            2 refused 1\n\
            3 refused 1\n\
            4 refused 1\n\
            5 refused 1\n\
            6 refused 3\n\
            7 refused 3\n\
            8 ok\n\
            9 = 0x00000000\n",
    },
    Case {
        name: "no_bytes_at_the_end_of_the_memory",
        script: "vfs 1 4096\n\
            open 0\n\
            mw 0 4096 -\n\
            mw 0 4097 -\n\
            mr 0 4096 0\n\
            mr 0 4097 0\n\
            mr 0 0 0\n",
        output: "1..2 ok\n\
            3 refused 4\n\
            4 bytes -\n\
            5 refused 4\n\
            6 bytes -\n",
    },
    Case {
        name: "the_longest_memory_accesses",
        script: "vfs 1 4096\n\
            open 0\n\
            mw 0 2048 aa*2048\n\
            mw 0 2049 aa*2048\n\
            mr 0 2048 2048\n",
        output: "1..2 ok\n\
            3 refused 4\n\
            4 bytes {aa*2048}\n",
    },
];

#[test]
fn accesses_are_answered(rt: HostRuntime) -> Result<(), Fail> {
    check(&rt, &CASES)
}
