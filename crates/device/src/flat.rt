// The flat device: one borrowed writable area, block after block.
ghost use Rattle.std.specs.Prelude.{◌≡◌, ◌/◌, true, false, length, MatchResult};
ghost use Rattle.device.specs.Makes.{flat, flat_fits, flat_meaning};

use crate::checks::{may_read, may_write};
use crate::supply::Supply;
use crate::{Device, DeviceFault, Unfit};

#[derive(Drop)]
pub struct Flat<'a> {
    area: &'a mut [u8],
    supply: Supply,
}

impl Device for Flat<'_> {
    ghost means = { λ s. flat_meaning s.area.now s.supply.left };

    fn count(&self) -> usize
        ensures meant { result ≡ length (flat_meaning self.now.area.now self.now.supply.left).disk.blocks }
        ensures whole { result ≡ length self.now.area.now / 512 }
    {
        self.area.len() / 512
    }

    fn read(&self, block: usize, buffer: &mut [u8]) -> Result<(), DeviceFault> {
        may_read(self.count(), block, buffer.len())?;
        let start = block * 512;
        buffer.copy_from_slice(&self.area[start..start + 512]);
        Ok(())
    }

    fn write(&mut self, block: usize, bytes: &[u8]) -> Result<(), DeviceFault> {
        may_write(self.count(), self.supply, block, bytes.len())?;
        let start = block * 512;
        self.area[start..start + 512].copy_from_slice(bytes);
        self.supply = self.supply.spend();
        Ok(())
    }

    fn set_supply(&mut self, supply: u32) -> Result<(), DeviceFault> {
        self.supply = Supply::try_from(supply)?;
        Ok(())
    }
}

impl<'a> Flat<'a> {
    // On mains.
    pub fn new(area: &'a mut [u8]) -> Result<Flat<'a>, Unfit<'a>>
        ensures { MatchResult result (λ f. (flat_fits area.old ≡ true) × ((flat_meaning f.area.now f.supply.left).disk ≡ flat area.old 1000001)) (λ e. (flat_fits area.old ≡ false) × (e.area.now ≡ area.old)) }
    {
        if area.len() % 512 != 0 {
            return Err(Unfit { area });
        }
        Ok(Flat {
            area,
            supply: Supply::mains(),
        })
    }

    // The area, as the writes left it.
    pub fn into_area(self) -> &'a mut [u8]
        ensures { result.now ≡ self.entry.area.now }
    {
        let Flat { area, .. } = self;
        area
    }
}
