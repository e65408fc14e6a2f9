// Texts and what they say, by the table of the language.
use super::check_said;
use crate::compare::assert_equal_at;
use script::number;
use std::test::Fail;

// A text, and its plain form.
static SAID: [(&str, &str); 25] = [
    // each kind of line once
    (
        "vfs 8 65536\nopen 1\nend 2\nflr 3\nr 4 0x1014\nw 5 0x108 7\nmr 6 0x1000 16\nmw 7 0x10 cafe\nserve 0 0\nserve 1 1\n\
            pr 0x51b0\npw 0x51e0 0xff\npreset\nwire 0200000000030200000000990800.00*46\n",
        "vfs 8 65536 1518\nopen 1\nend 2\nflr 3\nr 4 4116\nw 5 264 7\nmr 6 4096 16\nmw 7 16 ca*1.fe*1.\nserve 0 0\nserve 1 1\n\
            pr 20912\npw 20960 255\npreset\nwire 02*1.00*4.03*1.02*1.00*4.99*1.08*1.00*47.\n",
    ),
    // the least and the greatest device, and a limit on frames
    ("vfs 1 4096\n", "vfs 1 4096 1518\n"),
    ("vfs 64 16777216 9018", "vfs 64 16777216 9018\n"),
    ("vfs 0x40 0x1000 0x5ee", "vfs 64 4096 1518\n"),
    // lines that are skipped, before the device and after it
    (
        "# a\n\n   \n#\t\r\u{7f}\nvfs 1 4096\n\n#open 0\n  \nopen 0\n#",
        "vfs 1 4096 1518\nopen 0\n",
    ),
    // spaces
    (
        "   vfs   1  4096   \n  open   0  ",
        "vfs 1 4096 1518\nopen 0\n",
    ),
    // `go` is no event
    (
        "vfs 1 4096\nopen 0\ngo\nend 0\n",
        "vfs 1 4096 1518\nopen 0\nend 0\n",
    ),
    // numbers: any digits of either case, and leading zeros
    (
        "vfs 1 4096\nr 00 016\nr 0x0 0x0000000000000010\nw 0 0xfFfFfFfF 4294967295\n",
        "vfs 1 4096 1518\nr 0 16\nr 0 16\nw 0 4294967295 4294967295\n",
    ),
    // the greatest pool, address and length
    (
        "vfs 1 4096\nopen 255\nmr 255 0xffffffffffffffff 65535\nmr 0 18446744073709551615 0\n",
        "vfs 1 4096 1518\nopen 255\nmr 255 18446744073709551615 65535\nmr 0 18446744073709551615 0\n",
    ),
    // numbers of fifteen to eighteen digits, with spaces after them
    (
        "vfs 1 4096\nmr 0 999999999999999 1\nmr 0 1152921504606846975   1  \nmr 0 0000000000000016 2\n\
            mr 0 00000000000000017 3\nmr 0 0x07ffffffffffffff 4\nmr 0 0x1000000000000000 5\n",
        "vfs 1 4096 1518\nmr 0 999999999999999 1\nmr 0 1152921504606846975 1\nmr 0 16 2\n\
            mr 0 17 3\nmr 0 576460752303423487 4\nmr 0 1152921504606846976 5\n",
    ),
    // digits of fifteen to seventeen bytes, alone and after others
    (
        "vfs 1 4096\nmw 0 0 000102030405060708090a0b0c0d0e\nmw 0 0 f0f1f2f3f4f5f6f7f8f9fafbfcfdfeff\n\
            mw 0 0 77.000102030405060708090a0b0c0d0e0f10\n",
        "vfs 1 4096 1518\nmw 0 0 00*1.01*1.02*1.03*1.04*1.05*1.06*1.07*1.08*1.09*1.0a*1.0b*1.0c*1.0d*1.0e*1.\n\
            mw 0 0 f0*1.f1*1.f2*1.f3*1.f4*1.f5*1.f6*1.f7*1.f8*1.f9*1.fa*1.fb*1.fc*1.fd*1.fe*1.ff*1.\n\
            mw 0 0 77*1.00*1.01*1.02*1.03*1.04*1.05*1.06*1.07*1.08*1.09*1.0a*1.0b*1.0c*1.0d*1.0e*1.0f*1.10*1.\n",
    ),
    // bytes that are as many as their word has, twice as many and more, one after another
    (
        "vfs 1 4096\nmw 0 0 11*5\nmw 0 0 22*10\nmw 0 0 33*11\nmw 0 0 44*200.55.66*300\nmw 0 0 77.77\n",
        "vfs 1 4096 1518\nmw 0 0 11*5.\nmw 0 0 22*10.\nmw 0 0 33*11.\nmw 0 0 44*200.55*1.66*300.\nmw 0 0 77*2.\n",
    ),
    // bytes: none, digits of either case, and chunks
    ("vfs 1 4096\nmw 0 0 -", "vfs 1 4096 1518\nmw 0 0 \n"),
    (
        "vfs 1 4096\nmw 0 0 aB.Cd.eF*2",
        "vfs 1 4096 1518\nmw 0 0 ab*1.cd*1.ef*2.\n",
    ),
    (
        "vfs 1 4096\nmw 0 0 aa*2.bbcc.bb.dd*0003",
        "vfs 1 4096 1518\nmw 0 0 aa*2.bb*1.cc*1.bb*1.dd*3.\n",
    ),
    // each event has its own bytes, also where those of the one before were more or repeated
    (
        "vfs 1 4096\nmw 0 0 11*9\nmw 0 0 2233\nmw 0 0 -\nmw 0 0 44.55*2.66\nmw 0 0 77\n",
        "vfs 1 4096 1518\nmw 0 0 11*9.\nmw 0 0 22*1.33*1.\nmw 0 0 \nmw 0 0 44*1.55*2.66*1.\nmw 0 0 77*1.\n",
    ),
    // the same of frames
    (
        "vfs 1 4096\nwire 11*60\nwire 22*7.33*7\nwire 44*14\n",
        "vfs 1 4096 1518\nwire 11*60.\nwire 22*7.33*7.\nwire 44*14.\n",
    ),
    // the most bytes of a write
    (
        "vfs 1 4096\nmw 0 0 00*2048",
        "vfs 1 4096 1518\nmw 0 0 00*2048.\n",
    ),
    (
        "vfs 1 4096\nmw 0 0 00*2000.11*48",
        "vfs 1 4096 1518\nmw 0 0 00*2000.11*48.\n",
    ),
    // the shortest frames, without a tag and with one
    ("vfs 1 4096\nwire 00*14", "vfs 1 4096 1518\nwire 00*14.\n"),
    (
        "vfs 1 4096\nwire 020000000000020000000099.8100.00*4",
        "vfs 1 4096 1518\nwire 02*1.00*5.02*1.00*4.99*1.81*1.00*5.\n",
    ),
    // the longest ones
    (
        "vfs 1 4096\nwire 00*1518",
        "vfs 1 4096 1518\nwire 00*1518.\n",
    ),
    (
        "vfs 1 4096 2000\nwire 00*2000",
        "vfs 1 4096 2000\nwire 00*2000.\n",
    ),
    (
        "vfs 1 4096 9018\nwire 00*9018",
        "vfs 1 4096 9018\nwire 00*9018.\n",
    ),
    (
        "vfs 1 4096 9018\nwire 00*9000.11*18",
        "vfs 1 4096 9018\nwire 00*9000.11*18.\n",
    ),
];

#[test]
fn texts_say(rt: HostRuntime) -> Result<(), Fail> {
    for (text, wanted) in SAID {
        check_said(&rt, text.as_bytes(), wanted)?;
    }
    Ok(())
}

#[test]
fn words_are_numbers(rt: HostRuntime) {
    for (word, wanted) in [
        ("0", Some(0)),
        ("007", Some(7)),
        ("0x1Fff", Some(0x1FFF)),
        ("18446744073709551615", Some(u64::MAX)),
        ("0xFFFFffffFFFFffff", Some(u64::MAX)),
        ("00000000000000000000000000000000000000009", Some(9)),
        ("18446744073709551616", None),
        // seventeen digits are too many, also where they are zeros
        ("0x00000000000000001", None),
        ("0x", None),
        ("0X1", None),
        ("", None),
        ("ff", None),
        ("-1", None),
        ("+1", None),
        ("1_000", None),
        (" 1", None),
        ("1a", None),
        ("0xg", None),
    ] {
        assert_equal_at(&rt, number(word.as_bytes()), wanted, word);
    }
}
