// A device of either make, told apart here alone. A `Box<dyn Device>` could not hold it: the makes borrow their memory.
ghost use Rattle.lozkindar.specs.declared.any_device.AnyDevice.TheVariants.{Flat, Image};

use device::{Device, DeviceFault};

#[derive(Drop)]
pub enum AnyDevice<F, I> {
    Flat(F),
    Image(I),
}

impl<F: Device, I: Device> Device for AnyDevice<F, I> {
    ghost means = { elim [ Flat d ↦ F.means d | Image d ↦ I.means d ] };

    fn count(&self) -> usize {
        match self {
            AnyDevice::Flat(device) => device.count(),
            AnyDevice::Image(device) => device.count(),
        }
    }

    fn read(&self, block: usize, buffer: &mut [u8]) -> Result<(), DeviceFault> {
        match self {
            AnyDevice::Flat(device) => device.read(block, buffer),
            AnyDevice::Image(device) => device.read(block, buffer),
        }
    }

    fn write(&mut self, block: usize, bytes: &[u8]) -> Result<(), DeviceFault> {
        match self {
            AnyDevice::Flat(device) => device.write(block, bytes),
            AnyDevice::Image(device) => device.write(block, bytes),
        }
    }

    fn set_supply(&mut self, supply: u32) -> Result<(), DeviceFault> {
        match self {
            AnyDevice::Flat(device) => device.set_supply(supply),
            AnyDevice::Image(device) => device.set_supply(supply),
        }
    }
}
