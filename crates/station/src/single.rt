// The calls that concern one node alone.
ghost use Rattle.std.specs.Prelude.{◌≡◌};
ghost use Rattle.protocol.specs.World.{nothing};
ghost use Rattle.protocol.specs.Rules.{power, granted, read_tests, read, collect, status};
ghost use Rattle.memory.specs.Meaning.{meaning};
ghost use Rattle.station.specs.Meaning.{site, Alters};

use crate::Station;
use crate::storing::{METADATA, data_blocks};
use device::Device;
use memory::Memory;
use protocol::{Collected, Status};
use refusal::Refusal;

// The bytes of a block.
const BLOCK: usize = 512;

impl<D: Device> Station<D> {
    // A node that is down, with its card.
    pub fn down(device: D) -> Station<D>
        ensures memory { meaning result.memory ≡ nothing }
        ensures card { result.device ≡ device }
    {
        Station {
            memory: Memory::none(),
            device,
        }
    }

    pub fn power(&mut self, supply: u32) -> Result<(), Refusal>
        ensures { Alters D.Device.means (power supply) self.old result self.new }
    {
        self.device.set_supply(supply)?;
        Ok(())
    }

    // Those of a write begin with the same tests. They stand one by one: a table would work all of them out before the first is looked at.
    pub fn may_read(&self, block: usize, size: usize) -> Result<(), Refusal>
        ensures { result ≡ granted (read_tests block size (site D.Device.means self.now)) }
    {
        if size != BLOCK {
            return Err(Refusal::Measure);
        }
        if block >= data_blocks(&self.device) {
            return Err(Refusal::Block);
        }
        if self.memory.state.is_down() {
            return Err(Refusal::Down);
        }
        if !self.memory.role.is_primary() {
            return Err(Refusal::Role);
        }
        Ok(())
    }

    #[tactic(auto, unfolding(device::specs::Disk::read_answer))]
    pub fn read(&self, block: usize, buffer: &mut [u8]) -> Result<(), Refusal>
        ensures answer { result ≡ (read block buffer.old (site D.Device.means self.now)).0 }
        ensures bytes { buffer.new ≡ (read block buffer.old (site D.Device.means self.now)).1 }
    {
        self.may_read(block, buffer.len())?;
        self.device.read(block + METADATA, buffer)?;
        Ok(())
    }

    pub fn collect(&mut self) -> Result<Collected, Refusal>
        ensures { Alters D.Device.means collect self.old result self.new }
    {
        if self.memory.state.is_down() {
            return Err(Refusal::Down);
        }
        let oldest = self.memory.records.oldest().ok_or(Refusal::Nothing)?;
        if oldest.standing.is_waiting() {
            return Err(Refusal::Waiting);
        }
        self.memory.free_oldest();
        Ok(Collected::from(oldest))
    }

    pub fn status(&self) -> Status
        ensures { result ≡ status (meaning self.now.memory) }
    {
        Status {
            state: self.memory.state,
            role: self.memory.role,
        }
    }
}
