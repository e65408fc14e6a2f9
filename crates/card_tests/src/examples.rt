//! The example of the documentation of card, which docs/check compares with this.
use card::{Card, Room, Step};
use irq_causes::Vectors;
use live_run::Frames;
use mapped_memory::LiveMem;
use offload::Offloads;
use std::test::Fail;
use vfio_session::{ROOM, Settled};
use wire_frame::{FrameLimit, PoolId, Vid};

#[test]
fn example_of_card(rt: HostRuntime) -> Result<(), Fail> {
    let alloc = rt.alloc();
    let mut memories = Vec::new(alloc);
    memories.push(LiveMem::for_guest(alloc, 0)?)?;
    let mut card = Card::for_guests(
        alloc,
        memories,
        &[Vid::of_tag(0)],
        None,
        FrameLimit::standard(),
        Offloads::none(),
    )?;
    let pool = PoolId::new(0).ok_or("no such pool")?;
    // a guest comes, with 64 TiB of addresses, of which its client will map some
    if card
        .attach(pool, LiveMem::for_guest(alloc, 1 << 46)?)
        .is_err()
    {
        return Err("the guest is refused".into());
    }
    let mut room = [0u8; ROOM];
    // its client's first message: VERSION 0.0, beside which no file came
    let message = [0, 0, 1, 0, 20, 0, 0, 0, 0, 0, 0, 0, 0, 0, 0, 0, 0, 0, 0, 0];
    let count = match card.receive(pool, &message, 0, &mut room) {
        Step::Answered(count) => count,
        // here the shell would map a file, or give a file to a vector
        Step::Asks(_, owed) => owed.answer(Settled::Finished, &mut room),
        Step::Ends(_) => return Err("the connection has to end".into()),
    };
    assert!(rt; count == Some(114));
    // descriptors, and the frames that leave for the wire
    let mut frames = Frames::new(alloc, 64, 65536)?;
    let mut sending = Room::new();
    assert!(rt; !card.more(pool, &mut frames, &mut sending));
    // and the vectors whose files are to be written
    assert!(rt; card.signal(pool, Vectors::from_bits(7)).is_empty());
    Ok(())
}
