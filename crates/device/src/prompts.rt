//! The cause "other" of a virtual function, by which a host tells its driver that there is something to look at.
ghost use Rattle.std.specs.Prelude.{◌≡◌};
ghost use Rattle.device.specs.World.{sizes_of};
ghost use Rattle.device.specs.Guests.{prompted, prompt_messages};

use crate::device::Device;
use irq_causes::Vectors;
use live_memory::Dma;

impl<D: Dma<K>, K> Device<D, K> {
    /// Raises the cause "other" of a function, by the vector that its driver gave it, and answers with the vectors whose messages this
    /// issues (82599 datasheet, VTIVAR_MISC). The causes of that function alone change. Nothing changes, and no message is issued, where
    /// there is no such function, or it is closed.
    pub fn raise_other(&mut self, pool: u8) -> Vectors
        ensures world { self.new.world ≡ prompted self.old.world pool }
        ensures vectors { result ≡ prompt_messages self.old.world pool }
        ensures accesses { self.new.accesses ≡ self.old.accesses }
        ensures sizes { sizes_of self.new.world ≡ sizes_of self.old.world }
    {
        let index = usize::from(pool);
        if index >= self.units.len() {
            return Vectors::none();
        }
        self.units[index].raise_other()
    }
}
