//! Scripts that break the grammar or a limit, and the line that does.
use super::played::run;
use modes::Fault;
use script_support::short::long_script;
use std::test::Fail;

// A script in its short form, the line that it is refused at, and why that line is bad.
#[derive(Clone, Copy)]
struct BadCase {
    why: &'static str,
    script: &'static str,
    line: u32,
}

static CASES: [BadCase; 32] = [
    BadCase {
        why: "the script is empty, so that no line describes the device",
        script: "",
        line: 1,
    },
    BadCase {
        why: "there are comments alone, and no line describes the device",
        script: "#a\n\
            \n\
            #b\n",
        line: 1,
    },
    BadCase {
        why: "there is an empty line alone, and no line describes the device",
        script: "\n",
        line: 1,
    },
    BadCase {
        why: "there are spaces alone, and no line describes the device",
        script: "   ",
        line: 1,
    },
    BadCase {
        why: "a device has one function at least",
        script: "vfs 0 4096\n",
        line: 1,
    },
    BadCase {
        why: "the memory of a function has a multiple of 128 bytes",
        script: "vfs 1 4000\n",
        line: 1,
    },
    BadCase {
        why: "a CR is no end of a line, and no space",
        script: "vfs 1 4096\r\n",
        line: 1,
    },
    BadCase {
        why: "a CR is no end of a line, and no space, at the end of the script",
        script: "vfs 1 4096\r",
        line: 1,
    },
    BadCase {
        why: "an event comes before the line that describes the device",
        script: "#x\n\
            \n\
            open 0\n",
        line: 3,
    },
    BadCase {
        why: "a second line describes the device",
        script: "vfs 1 4096\n\
            vfs 1 4096\n",
        line: 2,
    },
    BadCase {
        why: "a second line describes the device, without LF",
        script: "vfs 1 4096\n\
            vfs 1 4096",
        line: 2,
    },
    BadCase {
        why: "the number of a function has eight bits, and 256 has nine",
        script: "vfs 1 4096\n\
            open 256\n",
        line: 2,
    },
    BadCase {
        why: "the number of a function has eight bits, and 256 has nine, without LF",
        script: "vfs 1 4096\n\
            open 256",
        line: 2,
    },
    BadCase {
        why: "no digits come after 0x",
        script: "vfs 1 4096\n\
            r 0 0x\n",
        line: 2,
    },
    BadCase {
        why: "no digits come after 0x, without LF",
        script: "vfs 1 4096\n\
            r 0 0x",
        line: 2,
    },
    BadCase {
        why: "an offset has 32 bits, and this one has 37",
        script: "vfs 1 4096\n\
            r 0 0x1000000000\n",
        line: 2,
    },
    BadCase {
        why: "an offset has 32 bits, and this one has 37, without LF",
        script: "vfs 1 4096\n\
            r 0 0x1000000000",
        line: 2,
    },
    BadCase {
        why: "a byte stands once at least",
        script: "vfs 1 4096\n\
            mw 0 0 00*0\n",
        line: 2,
    },
    BadCase {
        why: "a byte stands once at least, without LF",
        script: "vfs 1 4096\n\
            mw 0 0 00*0",
        line: 2,
    },
    BadCase {
        why: "a write has 2048 bytes at most, and this one has 2049",
        script: "vfs 1 4096\n\
            mw 0 0 00*2049\n",
        line: 2,
    },
    BadCase {
        why: "a write has 2048 bytes at most, and this one has 2049, without LF",
        script: "vfs 1 4096\n\
            mw 0 0 00*2049",
        line: 2,
    },
    BadCase {
        why: "a frame has 14 bytes at least, and this one has 13",
        script: "vfs 1 4096\n\
            wire 00*13\n",
        line: 2,
    },
    BadCase {
        why: "a frame has 14 bytes at least, and this one has 13, without LF",
        script: "vfs 1 4096\n\
            wire 00*13",
        line: 2,
    },
    BadCase {
        why: "a frame with a tag has 18 bytes at least, and this one has 17",
        script: "vfs 1 4096\n\
            wire 020000000000020000000099.8100.00*3\n",
        line: 2,
    },
    BadCase {
        why: "a frame with a tag has 18 bytes at least, and this one has 17, without LF",
        script: "vfs 1 4096\n\
            wire 020000000000020000000099.8100.00*3",
        line: 2,
    },
    BadCase {
        why: "`go` stands there twice",
        script: "vfs 1 4096\n\
            go\n\
            go\n",
        line: 3,
    },
    BadCase {
        why: "a byte has two digits, and these are three",
        script: "vfs 8 65536\n\
            open 0\n\
            mw 0 0x1000 004\n",
        line: 3,
    },
    BadCase {
        why: "a frame has 1518 bytes at most where the first line says nothing else, and this one has 9018, for which there is a ring of nine buffers of 1 KiB",
        script: "vfs 8 65536\n\
            @pools\n\
            @receiver 3\n\
            w 3 RXDCTL0 0\n\
            w 3 RDLEN0 256\n\
            w 3 SRRCTL0 0x02000001\n\
            w 3 RDT0 9\n\
            mw 3 0x1000 0040000000000000.0000000000000000.\
            0044000000000000.0000000000000000.\
            0048000000000000.0000000000000000.\
            004c000000000000.0000000000000000.\
            0050000000000000.0000000000000000.\
            0054000000000000.0000000000000000.\
            0058000000000000.0000000000000000.\
            005c000000000000.0000000000000000.\
            0060000000000000.0000000000000000\n\
            w 3 RXDCTL0 0x02000000\n\
            wire 0200000000030200000000990800.00*9004\n\
            mr 3 0x1078 8\n\
            mr 3 0x1088 8\n\
            r 3 RDH0\n",
        line: 22,
    },
    BadCase {
        why: "the first of three bad lines is told",
        script: "vfs 1 4096\n\
            open 0\n\
            x\n\
            y\n\
            vfs 2 4096\n",
        line: 3,
    },
    BadCase {
        why: "a frame has 9018 bytes at most, and this one has 9019",
        script: "vfs 1 4096 9018\n\
            wire 00*9018.00\n",
        line: 2,
    },
    BadCase {
        why: "a frame has 2000 bytes at most by the first line, and this one has 2001",
        script: "vfs 1 4096 2000\n\
            wire 00*2001\n",
        line: 2,
    },
    BadCase {
        why: "a frame has 1518 bytes at most by the first line, and this one has 1519",
        script: "vfs 1 4096 1518\n\
            wire 00*1519\n",
        line: 2,
    },
];

#[test]
fn bad_lines_are_refused(rt: HostRuntime) -> Result<(), Fail> {
    for case in &CASES {
        let script = long_script(rt.alloc(), case.script)?;
        let (result, written) = run(rt.alloc(), script.as_bytes());
        let due = (Err(Fault::BadScript(case.line)), 0);
        assert_eq!(rt; (result, written.len()), due, "{}", case.why);
    }
    Ok(())
}
