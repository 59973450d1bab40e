// What is done with an activity record.
ghost use Rattle.std.specs.Prelude.{◌≡◌, ℕ, ◌+◌, ◌/◌, ◌<◌, ◌&&◌, ◌||◌, replicate, nat_lt};
ghost use Rattle.bitmap.specs.Bits.{bit};
ghost use Rattle.card.specs.Rows.{row_of, stands};
ghost use Rattle.card.specs.Activities.{extent_in, entered, extents_of, limits_at, numbers_of, read_answer, RoundTrip, marked};

use crate::activity::Activity;
use crate::fault::ActivityFault;
use bitmap::Bitmap;
use row::{Limit, record};

const SLOTS: usize = 16;

// A card has at most 4,096 data blocks, of 64 each.
const EXTENTS: usize = 64;

// How many extents of 64 data blocks there are; the last may have fewer.
fn extents(blocks: u32) -> u32
    ensures { result ≡ extents_of blocks }
{
    blocks.div_ceil(64)
}

// A slot past those in use is empty.
fn limits_at(slots: u32, blocks: u32) -> [Limit; 16]
    ensures { result ≡ limits_at slots blocks }
{
    let mut limits = [Limit { least: 0, most: 0 }; SLOTS];
    let used = (slots as usize).min(SLOTS);
    let most = u64::from(extents(blocks));
    limits[..used].fill(Limit { least: 0, most });
    limits
}

impl Activity {
    pub fn empty() -> Activity
        ensures { result.slots ≡ replicate 16 0 }
    {
        Activity { slots: [0; SLOTS] }
    }

    // The extent in a slot, where it holds one.
    pub fn extent_in(&self, slot: usize) -> Option<u32>
        ensures { result ≡ extent_in self.now.slots slot }
    {
        let number = *self.slots.get(slot)?;
        number.checked_sub(1).map(|extent| extent as u32)
    }

    // Puts an extent, one of the 64 that there are, into a slot.
    pub fn enter(&mut self, slot: usize, extent: usize)
        ensures { self.new.slots ≡ entered self.old.slots slot extent }
    {
        if extent < EXTENTS && slot < SLOTS {
            self.slots[slot] = extent as u64 + 1;
        }
    }

    pub fn to_block(&self) -> [u8; 512]
        ensures { result ≡ row_of 512 self.now.slots }
    {
        record::to_block(&self.slots)
    }

    // The record of a card that has so many slots in use, and so many data blocks.
    pub fn from_block(block: &[u8], slots: u32, blocks: u32) -> Result<Activity, ActivityFault>
        ensures answer { numbers_of result ≡ read_answer block.now slots blocks }
        ensures law { RoundTrip block.now slots blocks (numbers_of result) }
    {
        let slots = record::from_block(block, &limits_at(slots, blocks), true)?;
        Ok(Activity { slots })
    }

    // Sets the bits of all data blocks in the extents that stand in a slot.
    pub fn mark(&self, map: &mut Bitmap, blocks: usize)
        ensures bytes { map.new.bytes ≡ marked blocks self.now.slots map.old.bytes }
        ensures bits { (j : ℕ) → j < 4096 → bit map.new.bytes j ≡ (bit map.old.bytes j || (stands (j / 64 + 1) self.now.slots && nat_lt j blocks)) }
    {
        for number in self.slots {
            if let Some(extent) = number.checked_sub(1) {
                map.mark_extent(extent as usize, blocks);
            }
        }
    }
}
