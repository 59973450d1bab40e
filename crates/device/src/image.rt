// The image device: a factory image that is only read, under a borrowed writable area that keeps the changed blocks.
// The area has a record for each block: its mark, which is 0 while the block is as the factory made it, and its 512 bytes.
ghost use Rattle.std.specs.Prelude.{◌≡◌, ◌/◌, min, true, false, length, MatchResult};
ghost use Rattle.device.specs.Makes.{imaged, image_fits, image_meaning};

use crate::checks::{may_read, may_write};
use crate::supply::Supply;
use crate::{Device, DeviceFault, Unfit};

#[derive(Drop)]
pub struct Image<'f, 'a> {
    factory: &'f [u8],
    area: &'a mut [u8],
    supply: Supply,
}

impl Device for Image<'_, '_> {
    ghost means = { λ s. image_meaning s.factory.now s.area.now s.supply.left };

    // As many blocks as both the image and the area have.
    fn count(&self) -> usize
        ensures meant { result ≡ length (image_meaning self.now.factory.now self.now.area.now self.now.supply.left).disk.blocks }
        ensures whole { result ≡ min (length self.now.factory.now / 512) (length self.now.area.now / 513) }
    {
        let blocks = self.factory.len() / 512;
        blocks.min(self.area.len() / 513)
    }

    fn read(&self, block: usize, buffer: &mut [u8]) -> Result<(), DeviceFault> {
        may_read(self.count(), block, buffer.len())?;
        let record = block * 513;
        if self.area[record] == 0 {
            buffer.copy_from_slice(&self.factory[block * 512..block * 512 + 512]);
        } else {
            buffer.copy_from_slice(&self.area[record + 1..record + 513]);
        }
        Ok(())
    }

    fn write(&mut self, block: usize, bytes: &[u8]) -> Result<(), DeviceFault> {
        may_write(self.count(), self.supply, block, bytes.len())?;
        let record = block * 513;
        // The mark comes last: until it is set, the factory's block stands.
        self.area[record + 1..record + 513].copy_from_slice(bytes);
        self.area[record] = 1;
        self.supply = self.supply.spend();
        Ok(())
    }

    fn set_supply(&mut self, supply: u32) -> Result<(), DeviceFault> {
        self.supply = Supply::try_from(supply)?;
        Ok(())
    }
}

impl<'f, 'a> Image<'f, 'a> {
    // On mains.
    pub fn new(factory: &'f [u8], area: &'a mut [u8]) -> Result<Image<'f, 'a>, Unfit<'a>>
        ensures { MatchResult result (λ i. (image_fits factory.now area.old ≡ true) × ((image_meaning i.factory.now i.area.now i.supply.left).disk ≡ imaged factory.now area.old 1000001)) (λ e. (image_fits factory.now area.old ≡ false) × (e.area.now ≡ area.old)) }
    {
        if factory.len() % 512 != 0 {
            return Err(Unfit { area });
        }
        if area.len() != factory.len() / 512 * 513 {
            return Err(Unfit { area });
        }
        Ok(Image {
            factory,
            area,
            supply: Supply::mains(),
        })
    }

    // The area, as the writes left it.
    pub fn into_area(self) -> &'a mut [u8]
        ensures { result.now ≡ self.entry.area.now }
    {
        let Image { area, .. } = self;
        area
    }
}
