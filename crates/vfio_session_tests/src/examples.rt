//! The examples of the documentation of vfio_session, which docs/check compares with these.
use std::test::Fail;
use vfio_session::{Ask, Decision, ROOM, Session, Settled};

#[test]
fn example_of_vfio_session(rt: HostRuntime) -> Result<(), Fail> {
    let mut session = Session::new();
    let mut room = [0u8; ROOM];
    // VERSION 0.0
    let version = [0, 0, 1, 0, 20, 0, 0, 0, 0, 0, 0, 0, 0, 0, 0, 0, 0, 0, 0, 0];
    match session.receive(&version, 0, &mut room) {
        Decision::Answered(count) => assert!(rt; count == Some(114)),
        Decision::Asks(_, owed) => assert!(rt; owed.answer(Settled::Finished, &mut room).is_none()),
        Decision::Ends(_) => return Err("the connection has to end".into()),
    }
    // REGION_READ of the register at offset 8
    let mut message = [0u8; 32];
    message[..8].copy_from_slice(&[1, 0, 9, 0, 32, 0, 0, 0]);
    message[16..].copy_from_slice(&[8, 0, 0, 0, 0, 0, 0, 0, 0, 0, 0, 0, 4, 0, 0, 0]);
    let count = match session.receive(&message, 0, &mut room) {
        Decision::Answered(count) => count,
        // here the device would read the register
        Decision::Asks(Ask::Read(8), owed) => owed.answer(Settled::Value(0x4000_0080), &mut room),
        Decision::Asks(_, owed) => owed.answer(Settled::Finished, &mut room),
        Decision::Ends(_) => return Err("the connection has to end".into()),
    };
    assert!(rt; count == Some(36));
    assert!(rt; room.get(32..36) == Some([0x80, 0, 0, 0x40].as_slice()));
    Ok(())
}
