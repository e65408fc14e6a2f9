//! What a function's lone function is given, and what is seen of it.
use super::check::{check_in, run_in};
use modes::{Fault, Mode};
use script_support::short::Case;
use std::test::Fail;

// Function 5 sends a frame to function 3, which reads its descriptor.
const LOOPED: &str = "vfs 8 65536\n\
    @pools\n\
    @receiver 3\n\
    @receiver 5\n\
    pw PFDTXGSWC 1\n\
    @send 5 0200000000030200000000990800.00*46 3c00302900000000\n\
    mr 3 0x1000 16\n";

// Function 6 is the default pool, and takes a frame for nobody.
const FALLEN: &str = "vfs 8 65536\n\
    @pools\n\
    @receiver 5\n\
    @receiver 6\n\
    pw PF_VT_CTL 0x300\n\
    pw PFDTXGSWC 1\n\
    @send 5 0200000000770200000000990800.00*46 3c00302900000000\n\
    pr PF_VT_CTL\n\
    wire 0200000000770200000000990800.00*46\n";

// Settings that are written again, or that are another's, and a device that is reset.
const WRITTEN: &str = "vfs 4 65536\n\
    pw PFVFRE 0x2\n\
    pw PFVFRE 0x6\n\
    pw RAH+8*1 0x80000100\n\
    pw MPSAR+8*1 0x2\n\
    pw MPSAR+8*2 0x2\n\
    pw RAH+8*2 0x80000100\n\
    pw 0x8001 0\n\
    pr PFVFRE\n\
    preset\n\
    pw PFVFRE 0x2\n\
    pw VMVIR+4*1 0\n\
    pw VMVIR+4*1 0x40000001\n\
    flr 1\n\
    r 2 VFLINKS\n";

// Function 3 may receive, and then may not; frames come from the wire all the same.
const SHUT: &str = "vfs 8 65536\n\
    @pools\n\
    @receiver 3\n\
    pw PFVFRE 0\n\
    wire 0200000000030200000000990800.00*46\n\
    wire 0200000000040200000000990800.00*46\n\
    end 3\n\
    pw PFVFRE 8\n\
    wire 0200000000030200000000990800.00*46\n\
    serve 3 0\n\
    open 3\n\
    serve 3 0\n\
    serve 3 1\n\
    pw PFVFTE 0\n\
    serve 3 1\n";

// A frame comes from the wire, and function 3 reads what it left.
const ARRIVED: &str = "vfs 8 65536\n\
    @pools\n\
    @receiver 3\n\
    wire 0200000000030200000000990800.00*46\n\
    mr 3 0x1000 16\n\
    r 3 VFGPRC\n\
    r 3 RDH0\n";

static CASES: [(Mode, Case); 14] = [
    (
        Mode::Keep(3),
        Case {
            name: "a_frame_from_the_wire",
            script: ARRIVED,
            output: "1 settings\n\
                2 settings\n\
                3 event\n\
                6 settings\n\
                7..14 event\n\
                15 offer 0 0200000000030200000000990800{00*46}\n\
                16..18 event\n",
        },
    ),
    (
        Mode::Lone(3),
        Case {
            name: "a_frame_from_the_wire",
            script: ARRIVED,
            output: "3 ok\n\
                7..14 ok\n\
                15 !3:1\n\
                16 bytes 0000000000000000030000003c000000\n\
                17 = 0x00000001\n\
                18 = 0x00000001\n",
        },
    ),
    (
        Mode::Keep(3),
        Case {
            name: "a_frame_of_another_function",
            script: LOOPED,
            output: "1 settings\n\
                2 settings\n\
                3 event\n\
                6 settings\n\
                7..14 event\n\
                34 offer 1 0200000000030200000000990800{00*46}\n\
                35 event\n",
        },
    ),
    (
        Mode::Lone(3),
        Case {
            name: "a_frame_of_another_function",
            script: LOOPED,
            output: "3 ok\n\
                7..14 ok\n\
                34 !3:1\n\
                35 bytes 0000000000000000030004003c000000\n",
        },
    ),
    (
        Mode::Keep(6),
        Case {
            name: "a_frame_that_falls_to_the_default_pool",
            script: FALLEN,
            output: "1 settings\n\
                2 settings\n\
                15 event\n\
                18 settings\n\
                19..26 event\n\
                37 offer 0 0200000000770200000000990800{00*46}\n",
        },
    ),
    (
        Mode::Lone(6),
        Case {
            name: "a_frame_that_falls_to_the_default_pool",
            script: FALLEN,
            output: "15 ok\n\
                19..26 ok\n\
                37 !6:1\n",
        },
    ),
    (
        Mode::Keep(0),
        Case {
            name: "no_events",
            script: "vfs 1 4096\n",
            output: "",
        },
    ),
    (
        Mode::Lone(0),
        Case {
            name: "no_events",
            script: "vfs 1 4096\n",
            output: "",
        },
    ),
    (
        Mode::Keep(7),
        Case {
            name: "the_last_function",
            script: "vfs 8 65536\nopen 7\n",
            output: "1 event\n",
        },
    ),
    (
        Mode::Lone(7),
        Case {
            name: "the_last_function",
            script: "vfs 8 65536\nopen 7\n",
            output: "1 ok\n",
        },
    ),
    (
        Mode::Keep(1),
        Case {
            name: "settings_are_told_where_they_differ",
            script: WRITTEN,
            output: "1 settings\n\
                4 settings\n\
                9 gone\n\
                10 settings\n\
                12 settings\n\
                13 event\n",
        },
    ),
    (
        Mode::Lone(1),
        Case {
            name: "settings_are_told_where_they_differ",
            script: WRITTEN,
            output: "13 refused 2\n",
        },
    ),
    (
        Mode::Keep(3),
        Case {
            name: "frames_that_may_not_come_in",
            script: SHUT,
            output: "1 settings\n\
                2 settings\n\
                3 event\n\
                6 settings\n\
                7..14 event\n\
                15 settings\n\
                16 offer 0 0200000000030200000000990800{00*46}\n\
                18 event\n\
                19 settings\n\
                20 offer 0 0200000000030200000000990800{00*46}\n\
                21..24 event\n\
                25 settings\n\
                26 event\n",
        },
    ),
    (
        Mode::Lone(3),
        Case {
            name: "frames_that_may_not_come_in",
            script: SHUT,
            output: "3 ok\n\
                7..14 ok\n\
                18 ok\n\
                21 refused 2\n\
                22 ok\n\
                23..24 idle\n\
                26 idle\n",
        },
    ),
];

#[test]
fn a_function_is_given_its_own_alone(rt: HostRuntime) -> Result<(), Fail> {
    for (mode, case) in &CASES {
        check_in(&rt, *mode, *case)?;
    }
    Ok(())
}

// Modes for a function, and what is answered to them for a script.
static REFUSED: [(Mode, &str, Fault); 8] = [
    (Mode::Keep(8), LAST, Fault::NoSuchVf),
    (Mode::Lone(8), LAST, Fault::NoSuchVf),
    (Mode::Lone(64), LAST, Fault::NoSuchVf),
    (Mode::Keep(256), LAST, Fault::NoSuchVf),
    (Mode::Keep(u64::MAX), LAST, Fault::NoSuchVf),
    (Mode::Keep(99), "vfs 1 4096\nx\n", Fault::BadScript(2)),
    (Mode::Lone(99), "", Fault::BadScript(1)),
    (Mode::Lone(0), "vfs 1 4095\n", Fault::BadScript(1)),
];

const LAST: &str = "vfs 8 65536\nopen 7\n";

#[test]
fn a_function_that_is_not_there_is_refused(rt: HostRuntime) {
    for (mode, script, fault) in &REFUSED {
        let (result, written) = run_in(rt.alloc(), *mode, *script);
        assert_eq!(rt; (result, written.len()), (Err(*fault), 0), "{mode:?}");
    }
}
