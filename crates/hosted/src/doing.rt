//! What the host has the device do.
ghost use Rattle.std.specs.Prelude.{◌≡◌, ◌≤◌, [], ◌∷◌, length};
ghost use Rattle.device.specs.World.{world_after};
ghost use Rattle.mailbox.specs.declared.writes.Write.{Write};
ghost use Rattle.mailbox.specs.Host.{host_after, host_without};
ghost use Rattle.mailbox.specs.Message.{message_of};
ghost use Rattle.mailbox.specs.Replies.{reply_to};
ghost use Rattle.mailbox.specs.Within.{IsWithin};
ghost use Rattle.mailbox_laws.specs.Turns.{events_of, host_at_end, write_events};
ghost use Rattle.mailbox_laws.specs.Turns.Turn.{Answers, Forgets};
ghost use Rattle.hosted.specs.Turns.{mail_turns, mailed, prompted_by, resets, vectors_by};

use device::Device;
use irq_causes::Vectors;
use live_memory::Dma;
use mailbox::{Host, Mailbox, Notice, Rang, Write};
use wire_frame::{PoolId, has_bit};

/// VFCTRL, and its bit RST (82599 datasheet, VF Device Control).
const VFCTRL: u32 = 0x0;

const RST: u32 = 26;

/// Does writes of the physical function's registers, in their order.
pub fn do_writes<D: Dma<K>, K>(device: &mut Device<D, K>, writes: &[Write])
    ensures world { device.new.world
        ≡ world_after device.old.world (write_events writes.now) }
    ensures accesses { device.new.accesses ≡ device.old.accesses }
{
    for write in writes {
        // each offset is one of the physical function's
        let _ = device.pf_write(write.offset, write.value);
    }
}

/// What a write of a function's driver has the host do, once the device took it: the host answers the message that stands in the
/// mailbox, where the driver rings, or forgets what the guest asked for, where the driver resets its function.
pub fn mail<D: Dma<K>, K>(
    device: &mut Device<D, K>,
    host: &mut Host,
    mailbox: &mut Mailbox,
    pool: PoolId,
    offset: u32,
    value: u32,
)
    ensures world { device.new.world ≡ world_after device.old.world
        (events_of host.old (mail_turns mailbox.old pool offset value)) }
    ensures host { host.new ≡ host_at_end host.old (mail_turns mailbox.old pool offset value) }
    ensures mailbox { mailbox.new ≡ mailed host.old pool mailbox.old offset value }
    ensures within { IsWithin host.old → IsWithin host.new }
    ensures accesses { device.new.accesses ≡ device.old.accesses }
{
    if mailbox.write(offset, value) == Some(Rang::Request) {
        answer(device, host, mailbox, pool);
    } else if is_reset(offset, value) {
        mailbox.clear();
        forget(device, host, pool);
    }
}

// The host answers the message that stands in the mailbox of a function.
#[tactic(auto, using(crate::proofs::OneTurn::answered))]
fn answer<D: Dma<K>, K>(
    device: &mut Device<D, K>,
    host: &mut Host,
    mailbox: &mut Mailbox,
    pool: PoolId,
)
    ensures world { device.new.world ≡ world_after device.old.world
        (events_of host.old (Answers pool (message_of mailbox.old.words) ∷ [])) }
    ensures host { host.new ≡ host_after host.old pool (message_of mailbox.old.words) }
    ensures mailbox { mailbox.new ≡ reply_to host.old pool mailbox.old }
    ensures within { IsWithin host.old → IsWithin host.new }
    ensures accesses { device.new.accesses ≡ device.old.accesses }
{
    let writes = host.answer(pool, mailbox);
    do_writes(device, writes.as_slice());
}

/// The host forgets what the guest of a function asked for.
#[tactic(auto, using(crate::proofs::OneTurn::forgotten))]
pub fn forget<D: Dma<K>, K>(device: &mut Device<D, K>, host: &mut Host, pool: PoolId)
    ensures world { device.new.world ≡ world_after device.old.world
        (events_of host.old (Forgets pool ∷ [])) }
    ensures host { host.new ≡ host_without host.old pool }
    ensures within { IsWithin host.old → IsWithin host.new }
    ensures accesses { device.new.accesses ≡ device.old.accesses }
{
    let writes = host.reset(pool);
    do_writes(device, writes.as_slice());
}

/// Raises the cause "other" of a function where the host's own message stands in its mailbox, and answers with the vectors whose messages
/// this issues.
pub fn prompt<D: Dma<K>, K>(device: &mut Device<D, K>, pool: PoolId, notice: Notice) -> Vectors
    ensures world { device.new.world ≡ prompted_by notice device.old.world pool }
    ensures vectors { result ≡ vectors_by notice device.old.world pool }
    ensures accesses { device.new.accesses ≡ device.old.accesses }
{
    match notice {
        Notice::Raises => device.raise_other(pool.get()),
        Notice::Waits => Vectors::none(),
    }
}

// Whether a write resets its function.
fn is_reset(offset: u32, value: u32) -> bool
    ensures { result ≡ resets offset value }
{
    offset == VFCTRL && has_bit(u64::from(value), RST)
}
