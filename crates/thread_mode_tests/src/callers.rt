//! Who made how many calls, by scripts whose tallies are counted by hand.
use super::played::run_threads;
use script_support::short::{Case, long_script};
use std::test::Fail;

const CASES: [Case; 11] = [
    Case {
        name: "a frame without `go`: five events are of the driver of the physical function, and all others of the service",
        script: "vfs 8 65536\n@pools\n@receiver 3\nwire 0200000000030200000000990800.00*46\nmr 3 0x1000 16\nr 3 VFGPRC\nr 3 RDH0\n",
        output: "history 18\ncaller pf 5\ncaller service 13\nreplay ok\n",
    },
    Case {
        name: "the same after `go`: the frame is the pump's, the last three events are the port's, and its end is recorded",
        script: "vfs 8 65536\n@pools\n@receiver 3\ngo\nwire 0200000000030200000000990800.00*46\nmr 3 0x1000 16\nr 3 VFGPRC\nr 3 RDH0\n",
        output: "history 19\ncaller port3 3\ncaller pf 5\ncaller pump 1\ncaller service 10\nreplay ok\n",
    },
    Case {
        name: "two guests, the wire and the driver of the physical function",
        script: "vfs 2 65536\nopen 0\nopen 1\ngo\nr 0 VFLINKS\nr 1 VFLINKS\nr 1 VFLINKS\nwire 0200000000000200000000990800.00*46\npr PF_VT_CTL\n",
        output: "history 9\ncaller port0 1\ncaller port1 2\ncaller pf 1\ncaller pump 1\ncaller service 4\nreplay ok\n",
    },
    Case {
        name: "a script that only asks for a device",
        script: "vfs 8 65536\n",
        output: "history 0\nreplay ok\n",
    },
    Case {
        name: "without `go` there is no port",
        script: "vfs 1 4096\nopen 0\nr 0 VFLINKS\npr PF_VT_CTL\nwire 0200000000000200000000990800\n",
        output: "history 4\ncaller pf 1\ncaller service 3\nreplay ok\n",
    },
    Case {
        name: "after its end a port makes no call, and one end is recorded",
        script: "vfs 1 4096\nopen 0\ngo\nr 0 VFLINKS\nend 0\nr 0 VFLINKS\nend 0\n",
        output: "history 3\ncaller port0 1\ncaller service 2\nreplay ok\n",
    },
    Case {
        name: "the events of pools without a port are of the service",
        script: "vfs 2 4096\nopen 0\nend 0\ngo\nr 0 VFLINKS\nmw 0 0 aa\nmr 0 0 1\nw 0 VFLINKS 1\nflr 1\nend 5\n",
        output: "history 8\ncaller service 8\nreplay ok\n",
    },
    Case {
        name: "a function that is opened anew before `go` has one port",
        script: "vfs 1 4096\nopen 0\nend 0\nopen 0\ngo\nr 0 VFLINKS\n",
        output: "history 5\ncaller port0 1\ncaller service 4\nreplay ok\n",
    },
    Case {
        name: "frames before `go` are of the service, and those after it of the pump",
        script: "vfs 1 4096\nwire 0200000000000200000000990800\ngo\nwire 0200000000000200000000990800\nwire 0200000000000200000000990800\n",
        output: "history 3\ncaller pump 2\ncaller service 1\nreplay ok\n",
    },
    Case {
        name: "calls of a port whose function the device closed are kept, and so is its end",
        script: "vfs 1 4096\nopen 0\ngo\npreset\nr 0 VFLINKS\nmr 0 0 2049\nmr 0 0 65535\n",
        output: "history 6\ncaller port0 3\ncaller pf 1\ncaller service 2\nreplay ok\n",
    },
    Case {
        name: "each kind of call",
        script: "vfs 64 4096\nopen 63\npreset\nopen 63\ngo\nr 63 0\nw 63 VTEIMS 7\nmw 63 0 -\nmw 63 16 cafe\nmr 63 16 2\nmr 63 0 0\nflr 63\nserve 63 0\nserve 63 1\nopen 62\npw PFVFRE 1\npreset\n",
        output: "history 16\ncaller port63 7\ncaller pf 3\ncaller service 6\nreplay ok\n",
    },
];

#[test]
fn callers_are_counted(rt: HostRuntime) -> Result<(), Fail> {
    for case in CASES {
        let script = long_script(rt.alloc(), case.script)?;
        let (result, written) = run_threads(rt, script.as_bytes());
        let is_due = written.as_slice() == case.output.as_bytes();
        assert_eq!(rt; (result, is_due), (Ok(()), true), "{}", case.name);
    }
    Ok(())
}
