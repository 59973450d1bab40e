// A block device, by what it means: a list of blocks and a supply of block writes.
// A supply of 1,000,001 is mains, which never falls; any other falls by one with each block write, and at 0 the device writes no more.
#![tactic(auto)]

mod checks;
mod supply;

// Each make is written out. What a read, a write and a supply have in common is in `checks` and `supply`; one type for both,
// generic in where its blocks lie, would need a trait with their meaning and its laws, to save a line or two of each method.
pub mod flat;
pub mod image;

ghost use Rattle.std.specs.Prelude.{◌≡◌, length};
ghost use Rattle.device.specs.Disk.{Meaning, read_answer, read_into, write_answer, written, supply_answer, supplied};
ghost use Rattle.device.specs.Faults.{refusal_of};

use refusal::Refusal;

#[derive(Clone, Copy, PartialEq, Eq, Debug)]
pub enum DeviceFault {
    // The block is not below the count.
    Range,
    // The block is there, and the supply is 0.
    Died,
    // A buffer is not one block long, or a supply is above mains.
    Measure,
}

impl From<DeviceFault> for Refusal {
    ghost from_gives = { λ f r. r ≡ refusal_of f };

    fn from(fault: DeviceFault) -> Refusal {
        match fault {
            DeviceFault::Range => Refusal::Block,
            DeviceFault::Died => Refusal::Died,
            DeviceFault::Measure => Refusal::Measure,
        }
    }
}

// An area over which a make cannot be had, handed back as it was.
#[derive(Drop)]
pub struct Unfit<'a> {
    pub area: &'a mut [u8],
}

pub trait Device {
    ghost means: { Self → Meaning };

    fn count(&self) -> usize
        ensures { result ≡ length (means self.now).disk.blocks };

    // One block into the buffer, which a refusal leaves as it was.
    fn read(&self, block: usize, buffer: &mut [u8]) -> Result<(), DeviceFault>
        ensures answer { result ≡ read_answer (means self.now).disk block (length buffer.old) }
        ensures bytes { buffer.new ≡ read_into (means self.now).disk block buffer.old };

    // One block from the bytes; a refusal leaves the device as it was.
    fn write(&mut self, block: usize, bytes: &[u8]) -> Result<(), DeviceFault>
        ensures answer { result ≡ write_answer (means self.old).disk block bytes.now }
        ensures after { (means self.new).disk ≡ written (means self.old).disk block bytes.now };

    fn set_supply(&mut self, supply: u32) -> Result<(), DeviceFault>
        ensures answer { result ≡ supply_answer supply }
        ensures after { (means self.new).disk ≡ supplied (means self.old).disk supply };
}
