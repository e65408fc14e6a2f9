//! The words of the command line, and how the program ends.
use modes::status::status;
use modes::{Fault, Mode};
use std::test::Fail;

// The words of a line, parted by `|`, and the mode that they ask for.
static WORDS: [(&str, Option<Mode>); 36] = [
    ("run", Some(Mode::Run)),
    ("", None),
    ("runs", None),
    ("run|0", None),
    ("run|run", None),
    ("Run", None),
    ("-h", None),
    ("--help", None),
    ("keep", None),
    ("lone", None),
    ("keep|", None),
    ("keep|x", None),
    ("keep|-1", None),
    ("keep|+1", None),
    ("keep| 0", None),
    ("keep|0|0", None),
    ("keep|0|", None),
    ("keep|1 ", None),
    ("keep|0x", None),
    ("lone|0x", None),
    ("lone|0X0", None),
    ("lone|18446744073709551616", None),
    ("keep|0x10000000000000000", None),
    ("keep|0x00000000000000000", None),
    ("keep|0xg", None),
    ("keep|1_0", None),
    ("lone|0", Some(Mode::Lone(0))),
    ("lone|8", Some(Mode::Lone(8))),
    ("lone|64", Some(Mode::Lone(64))),
    ("keep|18446744073709551615", Some(Mode::Keep(u64::MAX))),
    ("keep|0xffffffffffffffff", Some(Mode::Keep(u64::MAX))),
    ("keep|0xFFFFFFFFFFFFFFFF", Some(Mode::Keep(u64::MAX))),
    ("keep|0x08", Some(Mode::Keep(8))),
    ("keep|0x0000000000000007", Some(Mode::Keep(7))),
    (
        "lone|0000000000000000000000000000000007",
        Some(Mode::Lone(7)),
    ),
    ("keep|99", Some(Mode::Keep(99))),
];

#[test]
fn words_of_the_command_line(rt: HostRuntime) -> Result<(), Fail> {
    assert_eq!(rt; Mode::from_words(&[]), Err(Fault::Usage));
    for (line, mode) in &WORDS {
        let mut words = Vec::new(rt.alloc());
        for word in line.split('|') {
            words.push(String::from_str(rt.alloc(), word)?)?;
        }
        let due = mode.ok_or(Fault::Usage);
        assert_eq!(rt; Mode::from_words(words.as_slice()), due, "{line:?}");
    }
    Ok(())
}

// Each fault, its text, its number and the status that it ends the program with.
static FAULTS: [(Fault, &str, u8, u8); 6] = [
    (
        Fault::BadScript(100_001),
        "vfdev: line 100001: bad script",
        11,
        1,
    ),
    (
        Fault::NoSuchVf,
        "usage: vfdev run | keep P | lone P | threads",
        1,
        2,
    ),
    (
        Fault::Usage,
        "usage: vfdev run | keep P | lone P | threads",
        0,
        2,
    ),
    (Fault::Io, "vfdev: input or output failed", 12, 2),
    (Fault::NoMemory, "vfdev: no memory", 9, 3),
    (Fault::HistoryFull, "vfdev: no memory", 8, 3),
];

#[test]
fn faults(rt: HostRuntime) -> Result<(), Fail> {
    for (fault, text, number, ending) in &FAULTS {
        let told = fault.to_string(rt.alloc())?;
        let got = (told.as_str(), fault.number(), status(fault));
        assert_eq!(rt; got, (*text, *number, *ending));
    }
    Ok(())
}
