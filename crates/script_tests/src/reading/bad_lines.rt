// Texts that break the grammar, and the line that does.
use super::check_unread;
use crate::compare::assert_equal;
use script::Fault;
use std::test::Fail;

// A text, and the number of its first bad line.
static BAD: [(&str, u32); 81] = [
    // no device is asked for
    ("", 1),
    ("\n", 1),
    ("   ", 1),
    ("#a\n\n#b\n", 1),
    ("#x\n\nopen 0\n", 3),
    ("go\nvfs 1 4096\n", 1),
    ("\u{feff}vfs 1 4096\n", 1),
    // the device
    ("vfs 0 4096\n", 1),
    ("vfs 65 4096\n", 1),
    ("vfs 1 4000\n", 1),
    ("vfs 1 3968\n", 1),
    ("vfs 1 16777344\n", 1),
    ("vfs 1 4096 1517\n", 1),
    ("vfs 1 4096 9019\n", 1),
    ("vfs 1 4096 67054\n", 1),
    ("vfs 1 4096 1518 0\n", 1),
    ("vfs 1\n", 1),
    ("vfs\n", 1),
    ("VFS 1 4096\n", 1),
    ("vfs 1 4096\r\n", 1),
    ("vfs\t1 4096\n", 1),
    ("vfs 1 4096\nvfs 1 4096\n", 2),
    ("vfs 1 4096\nvfs 1 4096", 2),
    // lines that are no more than a blank that isn't a space, or a comment that isn't one
    ("vfs 1 4096\n\r\n", 2),
    ("vfs 1 4096\n\t\n", 2),
    ("vfs 1 4096\n #x\n", 2),
    ("vfs 1 4096\nopen 0 #x\n", 2),
    // names
    ("vfs 1 4096\nx\n", 2),
    ("vfs 1 4096\nOpen 0\n", 2),
    ("vfs 1 4096\nopens 0\n", 2),
    ("vfs 1 4096\nope 0\n", 2),
    // too few words, or too many
    ("vfs 1 4096\nopen\n", 2),
    ("vfs 1 4096\nopen 0 0\n", 2),
    ("vfs 1 4096\nr 0\n", 2),
    ("vfs 1 4096\nr 0 0 0\n", 2),
    ("vfs 1 4096\nw 0 0\n", 2),
    ("vfs 1 4096\nmr 0 0\n", 2),
    ("vfs 1 4096\nmw 0 0\n", 2),
    ("vfs 1 4096\nmw 0 0 aa bb\n", 2),
    ("vfs 1 4096\nserve 0\n", 2),
    ("vfs 1 4096\npr\n", 2),
    ("vfs 1 4096\npw 0\n", 2),
    ("vfs 1 4096\npreset 0\n", 2),
    ("vfs 1 4096\nwire\n", 2),
    ("vfs 1 4096\ngo 0\n", 2),
    ("vfs 1 4096\ngo\ngo\n", 3),
    // numbers past their range
    ("vfs 1 4096\nopen 256\n", 2),
    ("vfs 1 4096\nr 0 0x\n", 2),
    ("vfs 1 4096\nr 0 0x1000000000\n", 2),
    ("vfs 1 4096\nr 0 4294967296\n", 2),
    ("vfs 1 4096\nw 0 0 4294967296\n", 2),
    ("vfs 1 4096\nmr 0 18446744073709551616 0\n", 2),
    ("vfs 1 4096\nmr 0 0 65536\n", 2),
    ("vfs 1 4096\nserve 0 2\n", 2),
    ("vfs 1 4096\npw 0 -1\n", 2),
    // seventeen digits, and other bytes among digits or after them
    ("vfs 1 4096\nmr 0 0x00000000000000001 0\n", 2),
    ("vfs 1 4096\nr 0 16x\n", 2),
    ("vfs 1 4096\nr 0 0x1g\n", 2),
    ("vfs 1 4096\nmr 0 1\t 0\n", 2),
    ("vfs 1 4096\nr 0\t16\n", 2),
    // bytes
    ("vfs 8 65536\nopen 0\nmw 0 0x1000 004\n", 3),
    ("vfs 1 4096\nmw 0 0 .\n", 2),
    ("vfs 1 4096\nmw 0 0 aa.\n", 2),
    ("vfs 1 4096\nmw 0 0 -.aa\n", 2),
    ("vfs 1 4096\nmw 0 0 0x00\n", 2),
    ("vfs 1 4096\nmw 0 0 gg\n", 2),
    ("vfs 1 4096\nmw 0 0 000102030405060708090a0b0c0d0g\n", 2),
    ("vfs 1 4096\nmw 0 0 g00102030405060708090a0b0c0d0e\n", 2),
    ("vfs 1 4096\nmw 0 0 000102030405060708090a0b0c0d0eg0\n", 2),
    ("vfs 1 4096\nmw 0 0 aabb*2\n", 2),
    ("vfs 1 4096\nmw 0 0 00*0x2\n", 2),
    ("vfs 1 4096\nmw 0 0 00*\n", 2),
    ("vfs 1 4096\nmw 0 0 00*0\n", 2),
    ("vfs 1 4096\nmw 0 0 00*2049\n", 2),
    ("vfs 1 4096\nmw 0 0 00*2048.00\n", 2),
    // frames
    ("vfs 1 4096\nwire 00*13\n", 2),
    ("vfs 1 4096\nwire 020000000000020000000099.8100.00*3\n", 2),
    ("vfs 1 4096\nwire 00*1519\n", 2),
    ("vfs 1 4096 2000\nwire 00*2001\n", 2),
    ("vfs 1 4096 9018\nwire 00*9018.00\n", 2),
    // the first of two
    ("vfs 1 4096\nopen 0\nx\ny\nvfs 2 4096\n", 3),
];

#[test]
fn bad_lines_are_told(rt: HostRuntime) -> Result<(), Fail> {
    for (text, line) in BAD {
        check_unread(&rt, text.as_bytes(), Fault::BadScript(line))?;
    }
    Ok(())
}

#[test]
fn faults_are_told(rt: HostRuntime) -> Result<(), Fail> {
    let alloc = rt.alloc();
    for (fault, wanted) in [
        (Fault::BadScript(3), "line 3: bad script"),
        (Fault::Io, "reading failed"),
        (Fault::NoMemory, "no memory"),
    ] {
        let text = format!(in alloc; "{fault}")?;
        assert_equal(&rt, text.as_str(), wanted);
    }
    Ok(())
}
