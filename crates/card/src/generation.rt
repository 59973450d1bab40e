// The generation record, a card's block 0.
ghost use Rattle.std.specs.Prelude.{◌≡◌, true};
ghost use Rattle.row.specs.Rows.{all_fit};
ghost use Rattle.card.specs.Generations.{fresh_of, numbers_of, bytes_of, limits_at, read_answer, RoundTrip, next_identifier, after_identifier};

use crate::fault::GenerationFault;
use row::{Limit, record};

const SERIAL: u32 = 999_999_999;

const IDENTIFIERS: Limit = Limit {
    least: 0,
    most: 1_999_999_999,
};

const SERIALS: Limit = Limit {
    least: 0,
    most: SERIAL as u64,
};

const FLAG: Limit = Limit { least: 0, most: 1 };

const SLOTS: Limit = Limit { least: 4, most: 16 };

// Identifiers are numbers, 0 for none, as the card's format has them.
#[derive(Clone, Copy, PartialEq, Eq, Debug)]
pub struct Generation {
    pub current: u32,
    pub bitmap: u32,
    pub history_1: u32,
    pub history_2: u32,
    // How many identifiers the card has given out.
    pub serial: u32,
    pub consistent: bool,
    pub primary: bool,
    // How many slots of the activity record are in use.
    pub slots: u32,
    // How many data blocks the card has.
    pub blocks: u32,
}

fn limits_at(blocks: u32) -> [Limit; 9]
    ensures { result ≡ limits_at blocks }
{
    let blocks = Limit {
        least: u64::from(blocks),
        most: u64::from(blocks),
    };
    [
        IDENTIFIERS,
        IDENTIFIERS,
        IDENTIFIERS,
        IDENTIFIERS,
        SERIALS,
        FLAG,
        FLAG,
        SLOTS,
        blocks,
    ]
}

impl Generation {
    // A card that was never in use.
    pub fn fresh(slots: u32, blocks: u32) -> Generation
        ensures { result ≡ fresh_of slots blocks }
    {
        Generation {
            current: 0,
            bitmap: 0,
            history_1: 0,
            history_2: 0,
            serial: 0,
            consistent: false,
            primary: false,
            slots,
            blocks,
        }
    }

    // The fields in their order, each of which twelve columns hold.
    fn numbers(&self) -> [u64; 9]
        ensures fields { result ≡ numbers_of self.now }
        ensures fit { all_fit (numbers_of self.now) ≡ true }
    {
        [
            u64::from(self.current),
            u64::from(self.bitmap),
            u64::from(self.history_1),
            u64::from(self.history_2),
            u64::from(self.serial),
            u64::from(self.consistent),
            u64::from(self.primary),
            u64::from(self.slots),
            u64::from(self.blocks),
        ]
    }

    pub fn to_block(&self) -> [u8; 512]
        ensures { result ≡ bytes_of self.now }
    {
        record::to_block(&self.numbers())
    }

    // The record of a card that has so many data blocks.
    pub fn from_block(block: &[u8], blocks: u32) -> Result<Generation, GenerationFault>
        ensures answer { result ≡ read_answer block.now blocks }
        ensures law { RoundTrip block.now blocks result }
    {
        let [
            current,
            bitmap,
            history_1,
            history_2,
            serial,
            consistent,
            primary,
            slots,
            blocks,
        ] = record::from_block(block, &limits_at(blocks), false)?;
        // Each number is within its limits, and so has 32 bits.
        // A flag is 0 or 1 by its limits, and no From makes a bool of a number.
        Ok(Generation {
            current: current as u32,
            bitmap: bitmap as u32,
            history_1: history_1 as u32,
            history_2: history_2 as u32,
            serial: serial as u32,
            consistent: consistent == 1,
            primary: primary == 1,
            slots: slots as u32,
            blocks: blocks as u32,
        })
    }

    // A new identifier, twice the next serial number plus the node: the two nodes never give out the same one.
    pub fn next_identifier(&mut self, node: usize) -> Option<u32>
        ensures answer { result ≡ next_identifier self.old node }
        ensures after { self.new ≡ after_identifier self.old node }
    {
        if node > 1 || self.serial >= SERIAL {
            return None;
        }
        self.serial += 1;
        Some(2 * self.serial + node as u32)
    }
}
