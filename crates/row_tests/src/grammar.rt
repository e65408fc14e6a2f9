//! Scripts that keep to the grammar in unusual ways.
use super::check::check;
use script_support::short::Case;
use std::test::Fail;

static CASES: [Case; 17] = [
    Case {
        name: "no_events",
        script: "vfs 8 65536\n",
        output: "",
    },
    Case {
        name: "any_byte_in_a_comment",
        script: "vfs 1 4096\n\
            #\t\r\0\x7f~ open\n\
            open 0\n",
        output: "1 ok\n",
    },
    Case {
        name: "go_is_passed_over",
        script: "vfs 1 4096\n\
            open 0\n\
            go\n\
            r 0 0x10\n",
        output: "1 ok\n\
            2 = 0x70000000\n",
    },
    Case {
        name: "digits_of_either_case",
        script: "vfs 1 4096\n\
            open 0\n\
            w 0 0x120 0x8A8b8C8D\n\
            r 0 0x120\n\
            mw 0 0 aB.Cd.eF*2\n\
            mr 0 0 4\n",
        output: "1..2 ok\n\
            3 = 0x82838081\n\
            4 ok\n\
            5 bytes abcdefef\n",
    },
    Case {
        name: "bytes_in_chunks",
        script: "vfs 1 4096\n\
            open 0\n\
            mw 0 0 aa.bb*2.ccdd.ee*1\n\
            mr 0 0 7\n",
        output: "1..2 ok\n\
            3 bytes aabbbbccddee00\n",
    },
    Case {
        name: "the_last_line_without_lf",
        script: "vfs 1 4096\n\
            open 0",
        output: "1 ok\n",
    },
    Case {
        name: "a_small_device_without_events",
        script: "vfs 1 4096\n",
        output: "",
    },
    Case {
        name: "numbers_of_many_digits",
        script: "vfs 0x1 0x00001000\n\
            open 000\n\
            r 0x0 0x0000000000000010\n\
            r 00 016\n\
            r 0 {0*5000}16\n",
        output: "1 ok\n\
            2 = 0x70000000\n\
            3 = 0x70000000\n\
            4 = 0x70000000\n",
    },
    Case {
        name: "lines_that_are_skipped",
        script: "# a\n\n   \n#\nvfs 1 4096\n\n# open 0\n    \nopen 0\n#",
        output: "1 ok\n",
    },
    Case {
        name: "many_spaces",
        script: "   vfs   1  4096   \n  open   0  \n",
        output: "1 ok\n",
    },
    Case {
        name: "a_count_with_leading_zeros",
        script: "vfs 1 4096\n\
            open 0\n\
            mw 0 0 aa*0002\n\
            mr 0 0 3\n",
        output: "1..2 ok\n\
            3 bytes aaaa00\n",
    },
    Case {
        name: "a_frame_limit_of_1518",
        script: "vfs 1 4096 1518\n\
            wire 00*1518\n",
        output: "1 ok\n",
    },
    Case {
        name: "the_most_functions",
        script: "vfs 64 4096\n\
            open 63\n\
            open 64\n",
        output: "1 ok\n\
            2 refused 1\n",
    },
    Case {
        name: "the_longest_frame",
        script: "vfs 1 4096\n\
            wire 00*1518\n",
        output: "1 ok\n",
    },
    Case {
        name: "the_longest_frame_of_a_limit",
        script: "vfs 1 4096 0x7d0\n\
            wire 00*2000\n",
        output: "1 ok\n",
    },
    Case {
        name: "the_longest_frame_of_all",
        script: "vfs 1 4096 9018\n\
            wire 00*9018\n",
        output: "1 ok\n",
    },
    Case {
        name: "the_shortest_tagged_frame",
        script: "vfs 1 4096\n\
            wire 020000000000020000000099.8100.00*4\n",
        output: "1 ok\n",
    },
];

#[test]
fn unusual_scripts_are_done(rt: HostRuntime) -> Result<(), Fail> {
    check(&rt, &CASES)
}
