// Making a card of a device: its first three blocks take the metadata, and the others are data blocks.
ghost use Rattle.std.specs.Prelude.{◌≡◌};
ghost use Rattle.card.specs.Creation.{data_blocks, slots_in_use, create_answer, created};

use crate::activity::Activity;
use crate::generation::Generation;
use bitmap::Bitmap;
use device::Device;
use refusal::Refusal;

pub fn data_blocks(count: usize) -> Result<u32, Refusal>
    ensures { result ≡ data_blocks count }
{
    match count {
        4..=4099 => Ok((count - 3) as u32),
        _ => Err(Refusal::Measure),
    }
}

// 0 asks for the default, as the rules of making a card have it.
fn slots_in_use(slots: usize) -> Result<u32, Refusal>
    ensures { result ≡ slots_in_use slots }
{
    match slots {
        0 => Ok(7),
        4..=16 => Ok(slots as u32),
        _ => Err(Refusal::Measure),
    }
}

// A write that dies leaves those before it.
pub fn create<D: Device>(device: &mut D, slots: usize) -> Result<(), Refusal>
    ensures answer { result ≡ create_answer (D.Device.means device.old).disk slots }
    ensures after { (D.Device.means device.new).disk ≡ created (D.Device.means device.old).disk slots }
{
    let blocks = data_blocks(device.count())?;
    let used = slots_in_use(slots)?;
    let generation = Generation::fresh(used, blocks).to_block();
    let activity = Activity::empty().to_block();
    let map = Bitmap::new();
    device.write(0, &generation)?;
    device.write(1, &activity)?;
    device.write(2, map.as_bytes())?;
    Ok(())
}
