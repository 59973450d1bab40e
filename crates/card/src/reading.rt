// Reading a card: its three metadata blocks are checked in turn.
ghost use Rattle.std.specs.Prelude.{◌≡◌};
ghost use Rattle.card.specs.Reading.{contents_of, decode_answer, block_answer, told_of, card_answer};

use crate::activity::Activity;
use crate::fault::{MetaFault, NodeFault};
use crate::generation::Generation;
use crate::making::data_blocks;
use bitmap::Bitmap;
use device::Device;
use refusal::Refusal;

#[derive(Clone, Copy)]
pub struct Card {
    pub generation: Generation,
    pub activity: Activity,
    pub bitmap: Bitmap,
}

fn decode(zero: &[u8], one: &[u8], two: &[u8], blocks: u32) -> Result<Card, MetaFault>
    ensures { contents_of result ≡ decode_answer zero.now one.now two.now blocks }
{
    let generation = Generation::from_block(zero, blocks)?;
    let activity = Activity::from_block(one, generation.slots, blocks)?;
    let bitmap = Bitmap::from_bytes(two, blocks as usize)?;
    Ok(Card {
        generation,
        activity,
        bitmap,
    })
}

// A block of a device, by value.
pub fn read_block<D: Device>(device: &D, block: usize) -> Result<[u8; 512], Refusal>
    ensures { result ≡ block_answer (D.Device.means device.now).disk block }
{
    let mut bytes = [0u8; 512];
    device.read(block, &mut bytes)?;
    Ok(bytes)
}

// The card of a node, whose number a fault in its metadata names: any number, so that nothing is refused here that was not.
pub fn read_card<D: Device>(device: &D, node: usize) -> Result<Card, Refusal>
    ensures { told_of result ≡ card_answer (D.Device.means device.now).disk node }
{
    let blocks = data_blocks(device.count())?;
    let zero = read_block(device, 0)?;
    let one = read_block(device, 1)?;
    let two = read_block(device, 2)?;
    let card = decode(&zero, &one, &two, blocks).map_err(|fault| NodeFault::from((node, fault)))?;
    Ok(card)
}
