//! A driver's accesses to its function's registers, and resets.
ghost use Rattle.std.specs.Prelude.{◌≡◌};
ghost use Rattle.device.specs.declared.event.Event.TheVariants.{Flr, VfRead, VfWrite};
ghost use Rattle.device.specs.Outcome.{done_or_refused, messages_or_refused, value_or_refused};
ghost use Rattle.device.specs.World.{silently, step};
ghost use Rattle.hosted.specs.Hosted.{HaveTaken, LeavesOthers};
ghost use Rattle.hosted.specs.Turns.{mailboxes_read, mailboxes_reset, mailboxes_written, read_reply, reset_turns, write_turns};

use crate::doing::{forget, mail};
use crate::hosted::HostedDevice;
use irq_causes::Messages;
use live_memory::Dma;
use wire_frame::{Fault, PoolId};

impl<D: Dma<K>, K> HostedDevice<D, K> {
    /// Reads a register of a function: a word of its mailbox (VFMBMEM, VFMAILBOX), or a register of the device.
    ///
    /// Refused as [`Device::vf_read`](device::Device::vf_read) is: [`Fault::NoSuchVf`], then [`Fault::NotOpen`], then
    /// [`Fault::BadOffset`].
    pub fn vf_read(&mut self, pool: u8, offset: u32) -> Result<u32, Fault>
        ensures reply { value_or_refused result ≡ read_reply self.old pool offset }
        ensures mailboxes { self.new.mailboxes ≡ mailboxes_read self.old pool offset }
        ensures world { self.new.device.world
            ≡ (step self.old.device.world (VfRead pool offset)).world }
        ensures host { self.new.host ≡ self.old.host }
        ensures accesses { self.new.device.accesses ≡ self.old.device.accesses }
        ensures others { LeavesOthers pool self.old self.new }
    {
        let value = self.device.vf_read(pool, offset)?;
        match self.mailboxes[usize::from(pool)].read(offset) {
            Some(word) => Ok(word),
            None => Ok(value),
        }
    }

    /// Writes a register of a function, and answers with the messages that this issues. Where the driver rings VFMAILBOX, the host
    /// answers the message that stands in the mailbox, and its writes of the physical function's registers are done. Where the driver
    /// resets its function (VFCTRL.RST), the host forgets what its guest asked for, and the mailbox is blank.
    ///
    /// Refused as [`vf_read`](HostedDevice::vf_read) is; a refused write rings nothing.
    pub fn vf_write(&mut self, pool: u8, offset: u32, value: u32) -> Result<Messages, Fault>
        ensures answer { messages_or_refused result
            ≡ (step self.old.device.world (VfWrite pool offset value)).answer }
        ensures taken { HaveTaken (write_turns self.old pool offset value) self.old self.new }
        ensures mailboxes { self.new.mailboxes ≡ mailboxes_written self.old pool offset value }
        ensures accesses { self.new.device.accesses ≡ self.old.device.accesses }
        ensures others { LeavesOthers pool self.old self.new }
    {
        let HostedDevice {
            device,
            host,
            mailboxes,
        } = self;
        let messages = device.vf_write(pool, offset, value)?;
        let Some(pool) = PoolId::new(pool) else {
            unreachable!()
        };
        let mailbox = &mut mailboxes[usize::from(pool.get())];
        mail(device, host, mailbox, pool, offset, value);
        Ok(messages)
    }

    /// Resets a function from outside (SR-IOV 1.1, function-level reset), by its configuration space or by whoever runs its guest: its
    /// registers become initial, the host forgets what its guest asked for, and the mailbox tells the driver (RSTD).
    ///
    /// [`Fault::NoSuchVf`], then [`Fault::NotOpen`].
    pub fn flr(&mut self, pool: u8) -> Result<(), Fault>
        ensures answer { silently (done_or_refused result)
            ≡ (step self.old.device.world (Flr pool)).answer }
        ensures taken { HaveTaken (reset_turns self.old pool) self.old self.new }
        ensures mailboxes { self.new.mailboxes ≡ mailboxes_reset self.old pool }
        ensures accesses { self.new.device.accesses ≡ self.old.device.accesses }
        ensures others { LeavesOthers pool self.old self.new }
    {
        let HostedDevice {
            device,
            host,
            mailboxes,
        } = self;
        device.flr(pool)?;
        let Some(pool) = PoolId::new(pool) else {
            unreachable!()
        };
        mailboxes[usize::from(pool.get())].reset();
        forget(device, host, pool);
        Ok(())
    }
}
