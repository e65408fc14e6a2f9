//! The examples of the documentation of vfio_user, which docs/check compares with these.
use std::test::Fail;
use vfio_user::{Header, MOST, Reply, Request};

#[test]
fn example_of_vfio_user(rt: HostRuntime) -> Result<(), Fail> {
    // REGION_READ of two bytes of the configuration space, from byte 2 on
    let mut message = [0u8; 32];
    message[..16].copy_from_slice(&[7, 0, 9, 0, 32, 0, 0, 0, 0, 0, 0, 0, 0, 0, 0, 0]);
    message[16..].copy_from_slice(&[2, 0, 0, 0, 0, 0, 0, 0, 7, 0, 0, 0, 2, 0, 0, 0]);
    let Ok(header) = Header::decode(&message) else {
        return Err("the connection has to end".into());
    };
    let mut room = [0u8; MOST as usize];
    let count = match Request::decode(header.command, &message[16..]) {
        Ok(Request::Read(region)) if region.count == 2 => {
            Reply::Bytes(region, [0xED, 0x10].as_slice()).encode(&header, &mut room)
        }
        Ok(_) => Reply::Done.encode(&header, &mut room),
        Err(errno) => Reply::Failed(errno).encode(&header, &mut room),
    };
    assert!(rt; room[..count].ends_with(&[2, 0, 0, 0, 0xED, 0x10]));
    Ok(())
}
