//! What stands in the room that is lent to each event, and whose event it is.
use super::*;
use crate::compare::assert_equal;
use device::{MemSlice, Request, Response, Room, Whose};
use script_support::registers::VFLINKS;

// Events of function 3, and the bytes that each reads into the one room: bytes of an earlier event are none of a later one.
const READS: [(Request<'static>, &[u8]); 10] = [
    (Request::MemRead(3, 41, 2), &[6, 7]),
    (Request::VfRead(3, VFLINKS), &[]),
    (Request::MemRead(3, 40, 4), &[5, 6, 7, 0]),
    (Request::MemRead(3, 65535, 2), &[]),
    (Request::MemRead(3, 2048, 2048), &[0; 2048]),
    (Request::MemRead(3, 2048, 2049), &[]),
    (Request::End(3), &[]),
    (Request::MemRead(3, 41, 2), &[]),
    (Request::Open(3), &[]),
    // opened again, nothing of the former tenant is left
    (Request::MemRead(3, 41, 2), &[0, 0]),
];

// An event of each kind, without bytes and without a frame, and whose it is.
const WHOSE: [(Event<(), ()>, Whose); 12] = [
    (Event::Open(0), Whose::Function(0)),
    (Event::End(1), Whose::Function(1)),
    (Event::VfRead(2, 8), Whose::Function(2)),
    (Event::VfWrite(3, 8, 9), Whose::Function(3)),
    (Event::MemRead(4, 8, 9), Whose::Function(4)),
    (Event::MemWrite(5, 8, ()), Whose::Function(5)),
    (Event::Serve(63, Queue::Q1), Whose::Function(63)),
    // there is no such function, and it is no one else's
    (Event::Flr(255), Whose::Function(255)),
    (Event::PfRead(8), Whose::Physical),
    (Event::PfWrite(8, 9), Whose::Physical),
    (Event::PfReset, Whose::Physical),
    (Event::Wire(()), Whose::Wire),
];

// What comes of a request. It promises nothing, so what the call promises isn't carried along in what calls it.
fn take<M: GuestMem>(device: &mut Device<M>, request: Request<'_>, room: &mut Room) -> Response {
    device.take(request, room)
}

#[test]
fn one_room_serves_many_reads(rt: HostRuntime) -> Result<(), Fail> {
    let mut device = Device::new(rt.alloc(), memories(rt.alloc(), 8, 65536)?)?;
    device.open(3)?;
    device.mem_write(3, 40, MemSlice::new(&[5, 6, 7])?)?;
    let mut room = Room::default();
    for (request, due) in READS {
        let response = take(&mut device, request, &mut room);
        assert_equal(&rt, room.read(response.outcome), due);
        let answered = match response.answer(&room).reply {
            Reply::Bytes(bytes) => bytes.bytes() == due,
            _ => due.is_empty(),
        };
        assert_equal(&rt, answered, true);
    }
    Ok(())
}

#[test]
fn an_event_is_one_functions_or_the_physical_functions_or_the_wires(rt: HostRuntime) {
    for (event, due) in WHOSE {
        let pool = match due {
            Whose::Function(pool) => Some(pool),
            Whose::Physical | Whose::Wire => None,
        };
        assert_equal(&rt, (event.whose(), event.pool()), (due, pool));
    }
}
