use super::*;
use crate::compare::assert_equal;
use script_support::registers::{PFVFRE, VTEIMS};

// Whether the requests stand for the same event.
fn is_same(first: Request<'_>, second: Request<'_>) -> bool {
    match (first, second) {
        (Request::Open(p), Request::Open(q)) => p == q,
        (Request::End(p), Request::End(q)) => p == q,
        (Request::VfRead(p, at), Request::VfRead(q, to)) => p == q && at == to,
        (Request::VfWrite(p, at, x), Request::VfWrite(q, to, y)) => p == q && at == to && x == y,
        (Request::MemRead(p, at, m), Request::MemRead(q, to, n)) => p == q && at == to && m == n,
        (Request::MemWrite(p, at, x), Request::MemWrite(q, to, y)) => p == q
            && at == to
            && x.bytes() == y.bytes(),
        (Request::Serve(p, Queue::Q0), Request::Serve(q, Queue::Q0)) => p == q,
        (Request::Serve(p, Queue::Q1), Request::Serve(q, Queue::Q1)) => p == q,
        (Request::Flr(p), Request::Flr(q)) => p == q,
        (Request::PfRead(at), Request::PfRead(to)) => at == to,
        (Request::PfWrite(at, x), Request::PfWrite(to, y)) => at == to && x == y,
        (Request::PfReset, Request::PfReset) => true,
        (Request::Wire(x), Request::Wire(y)) => x.bytes() == y.bytes(),
        _ => false,
    }
}

// A caller for each call: the service, the pump, the driver, and the ports from that of pool 63 down.
fn caller_at(index: usize) -> Option<Caller> {
    Caller::from_number((66 - index % 67) as u8)
}

// Keeps calls of a device with 64 functions, and reads each back once all are kept.
fn assert_kept<R: Abort>(rt: &R, alloc: Global, asked: &[Request<'_>]) -> Result<(), Fail> {
    let mut device = device_of_64(alloc)?;
    let mut history = History::new(alloc, 16)?;
    let mut room = Room::new();
    for i in 0..asked.len() {
        let caller = caller_at(i).ok_or("no caller")?;
        keep(rt, &mut history, &mut device, caller, asked[i], &mut room);
    }
    assert_equal(rt, history.len(), asked.len());
    for i in 0..history.len() {
        assert_equal(rt, Some(history.caller(i)), caller_at(i));
        let kept = history.request(i);
        for j in 0..asked.len() {
            assert_eq!(rt; is_same(kept, asked[j]), i == j, "at {i} and {j}");
        }
    }
    let mut twin = device_of_64(alloc)?;
    assert_equal(rt, first_other(&history, &mut twin, &mut room), None);
    Ok(())
}

#[test]
fn events_without_bytes_read_back(rt: HostRuntime) -> Result<(), Fail> {
    assert_kept(
        &rt,
        rt.alloc(),
        &[
            Request::Open(3),
            Request::VfWrite(3, VTEIMS, 5),
            Request::VfRead(3, VTEIMS),
            Request::MemRead(3, 2048, 2048),
            Request::MemRead(255, u64::MAX, u16::MAX),
            Request::Serve(3, Queue::Q0),
            Request::Serve(4, Queue::Q1),
            Request::Flr(3),
            Request::End(3),
            Request::PfWrite(PFVFRE, 0xFFFF_FFFF),
            Request::PfRead(PFVFRE),
            Request::PfReset,
        ],
    )
}

// The same of calls that bring or read these bytes.
fn assert_bytes_kept<'x, R: Abort>(
    rt: &R,
    alloc: Global,
    written: &'x [u8],
    frame: Frame<'x>,
) -> Result<(), Fail> {
    let written = MemSlice::new(written)?;
    assert_kept(
        rt,
        alloc,
        &[
            Request::Open(3),
            Request::MemWrite(3, 2048, written),
            Request::MemRead(3, 2047, 2048),
            Request::Wire(frame),
            Request::MemWrite(63, u64::MAX, written),
            Request::MemRead(3, 4095, 1),
        ],
    )
}

#[test]
fn events_with_bytes_read_back(rt: HostRuntime) -> Result<(), Fail> {
    let shortest = FrameBuf::from_bytes(&[1; 14])?;
    assert_bytes_kept(&rt, rt.alloc(), &[], shortest.as_frame())?;
    // longer than the device takes: it is refused, and kept as any other
    let longest = FrameBuf::from_bytes(&[2; 9018])?;
    assert_bytes_kept(&rt, rt.alloc(), &[3; 2048], longest.as_frame())?;
    Ok(())
}

#[test]
fn there_are_as_many_entries_as_the_cap(rt: HostRuntime) -> Result<(), Fail> {
    let mut device = device_of_64(rt.alloc())?;
    let mut history = History::new(rt.alloc(), 2)?;
    let mut room = Room::new();
    assert!(rt; history.is_empty());
    for offset in [PFVFRE, PFVFRE + 4] {
        assert!(rt; !history.is_full());
        keep(
            &rt,
            &mut history,
            &mut device,
            Caller::Driver,
            Request::PfRead(offset),
            &mut room,
        );
    }
    assert!(rt; history.is_full());
    assert_equal(&rt, (history.len(), history.cap()), (2, 2));
    history.clear();
    assert!(rt; history.is_empty());
    assert_equal(&rt, (history.len(), history.cap()), (0, 2));
    // what is kept afterwards is the first entry, with its own bytes
    let written = MemSlice::new(&[1, 2, 3])?;
    keep(
        &rt,
        &mut history,
        &mut device,
        port_of(9),
        Request::MemWrite(9, 7, written),
        &mut room,
    );
    assert!(rt; 0 < history.len());
    assert_equal(&rt, history.caller(0), port_of(9));
    assert!(rt; is_same(history.request(0), Request::MemWrite(9, 7, written)));
    Ok(())
}
