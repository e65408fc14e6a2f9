//! Whole lives, replayed.
use crate::client::{Client, Seen};
use crate::compare::{assert_equal, assert_equal_at};
use crate::ipxe;
use crate::linux::{DRIVER, LATER, RESET, START};
use crate::registers::ACCESSES;
use std::process::Abort;
use std::test::Fail;
use vfio_session::{Ask, Fate, Settled};

// The reply to VERSION, whose text is this server's own.
const VERSION: &str =
    "00000100720000000100000000000000000000007b226361706162696c6974696573223a7b226d61785f6d73675f666473223a382c226d61785f646174615f786665725f73697a65223a343039362c22706773697a6573223a343039362c226d61785f646d615f6d617073223a36347d7d00";

// How often each kind of thing was asked.
#[derive(Clone, Copy, Debug, PartialEq, Eq)]
struct Tally {
    maps: u32,
    unmaps: u32,
    arms: u32,
    disarms: u32,
    resets: u32,
}

impl Tally {
    // Counts what was asked for, if anything was.
    fn count(&mut self, seen: Seen) {
        match seen {
            Seen::Asked(Ask::Map(_)) => self.maps = self.maps.wrapping_add(1),
            Seen::Asked(Ask::Unmap(_)) => self.unmaps = self.unmaps.wrapping_add(1),
            Seen::Asked(Ask::Arm(_)) => self.arms = self.arms.wrapping_add(1),
            Seen::Asked(Ask::Disarm(_)) => self.disarms = self.disarms.wrapping_add(1),
            Seen::Asked(Ask::Reset) => self.resets = self.resets.wrapping_add(1),
            _ => {}
        }
    }
}

// Sends a life's messages, each of which is answered; what is asked for is done. Each reply has to be the one that QEMU got, but for
// VERSION's text.
fn replay(rt: &(impl Abort + AllocGlobal), client: &mut Client, life: &str) -> Result<Tally, Fail> {
    let mut tally = Tally {
        maps: 0,
        unmaps: 0,
        arms: 0,
        disarms: 0,
        resets: 0,
    };
    for line in life.lines() {
        let mut words = line.split(' ');
        let files = words.next().ok_or("no number of files")?;
        let request = words.next().ok_or("no request")?;
        let reply = words.next().ok_or("no reply")?;
        let due = if request.starts_with("00000100") {
            VERSION
        } else {
            reply
        };
        let due = hex::decode(rt.alloc(), due)?;
        let (seen, _) = client.send_text(rt.alloc(), request, files_in(files), Settled::Finished)?;
        assert_equal_at(rt, client.got(&due), true, line);
        tally.count(seen);
    }
    Ok(tally)
}

// How many files came: 2 at most.
fn files_in(word: &str) -> usize {
    match word {
        "1" => 1,
        "2" => 2,
        _ => 0,
    }
}

/// Linux 6.1 from QEMU's start to its end. Twelve ranges come with a file, and five without one, of which nothing is asked; vectors
/// get files and lose them as the driver turns MSI-X on and off; QEMU resets the function once, and Linux once by the configuration space.
#[test]
fn linux(rt: HostRuntime) -> Result<(), Fail> {
    let mut client = Client::new();
    let started = replay(&rt, &mut client, START)?;
    assert_equal(&rt, started, counted(12, 11, 0, 0, 1));
    let driven = replay(&rt, &mut client, DRIVER)?;
    assert_equal(&rt, driven, counted(0, 0, 8, 7, 0));
    assert_equal(&rt, armed(&client), [true, true, false]);
    let reset = replay(&rt, &mut client, RESET)?;
    assert_equal(&rt, reset, counted(0, 0, 2, 0, 1));
    assert_equal(&rt, armed(&client), [true, true, false]);
    let later = replay(&rt, &mut client, LATER)?;
    assert_equal(&rt, later, counted(0, 0, 0, 5, 0));
    assert_equal(&rt, armed(&client), [false, false, false]);
    Ok(())
}

fn counted(maps: u32, unmaps: u32, arms: u32, disarms: u32, resets: u32) -> Tally {
    Tally {
        maps,
        unmaps,
        arms,
        disarms,
        resets,
    }
}

fn armed(client: &Client) -> [bool; 3] {
    [
        client.session.is_armed(0),
        client.session.is_armed(1),
        client.session.is_armed(2),
    ]
}

/// What QEMU sent for iPXE beside that.
#[test]
fn ipxe(rt: HostRuntime) -> Result<(), Fail> {
    let mut client = Client::new();
    let tally_of_life = replay(&rt, &mut client, ipxe::LIFE)?;
    assert_equal(&rt, tally_of_life, counted(0, 0, 0, 0, 0));
    Ok(())
}

/// Each register that these drivers used, once, with the value that went over the socket. A read is answered with the card's value; a
/// write is posted, so that nobody waits for a reply.
#[test]
fn registers(rt: HostRuntime) -> Result<(), Fail> {
    let mut client = Client::begun();
    for line in ACCESSES.lines() {
        let mut words = line.split(' ');
        let kind = words.next().ok_or("no kind")?;
        let offset = words.next().ok_or("no offset")?;
        let bytes = words.next().ok_or("no bytes")?;
        let value = u32::from_str_radix(bytes, 16)?.swap_bytes();
        let place = u32::from_str_radix(offset, 16)?;
        let place_bytes = format!(in rt.alloc(); "{:08x}", place.swap_bytes())?;
        let region = format!(in rt.alloc(); "{}000000000000000004000000", place_bytes.as_str())?;
        if kind == "r" {
            let read = format!(in rt.alloc();
                "34120900200000000000000000000000{}",
                region.as_str()
            )?;
            let due = format!(in rt.alloc();
                "34120900240000000100000000000000{}{bytes}",
                region.as_str()
            )?;
            let due = hex::decode(rt.alloc(), due.as_str())?;
            let seen = client.send_text(rt.alloc(), read.as_str(), 0, Settled::Value(value))?;
            assert_equal_at(
                &rt,
                seen,
                (Seen::Asked(Ask::Read(place)), Fate::Closed),
                line,
            );
            assert_equal_at(&rt, client.got(&due), true, line);
        } else {
            let written = format!(in rt.alloc();
                "34120a00240000001000000000000000{}{bytes}",
                region.as_str()
            )?;
            let seen = client.send_text(rt.alloc(), written.as_str(), 0, Settled::Finished)?;
            assert_equal_at(
                &rt,
                seen,
                (Seen::Asked(Ask::Write(place, value)), Fate::Closed),
                line,
            );
            assert_equal_at(&rt, client.got_none(), true, line);
        }
    }
    Ok(())
}

/// QEMU reads the configuration space in one message of 4,096 bytes when it attaches: the longest reply. Its first bytes are vendor and
/// device, Command and Status.
#[test]
fn the_whole_space(rt: HostRuntime) -> Result<(), Fail> {
    let mut client = Client::begun();
    let seen = client.send_text(
        rt.alloc(),
        "0f00090020000000000000000000000000000000000000000700000000100000",
        0,
        Settled::Finished,
    )?;
    assert_equal(&rt, seen, (Seen::Answered, Fate::Closed));
    let mut due = hex::decode(rt.alloc(), WHOLE)?;
    for _ in 0..3840 {
        due.push(0)?;
    }
    assert_equal(&rt, client.got(&due), true);
    Ok(())
}

// The header, which bytes of the region, and the 256 bytes that a virtual function has.
const WHOLE: &str = "\
0f00090020100000010000000000000000000000000000000700000000100000\
8680ed1000001000010000020000000004000000000000000000000004000000\
0000000000000000000000008680117a00000000700000000000000000000000\
0000000000000000000000000000000000000000000000000000000000000000\
0000000000000000000000000000000011a00200030000000320000000000000\
0000000000000000000000000000000000000000000000000000000000000000\
100002000280001000000000420d000000004200000000000000000000000000\
0000000010000000000000000000000000000000000000000000000000000000\
0000000000000000000000000000000000000000000000000000000000000000";
