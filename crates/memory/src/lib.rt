// What a node keeps in memory while it is up, and loses with its power.
#![tactic(auto)]

pub mod generations;
mod keeping;
pub mod recency;

use crate::recency::Recency;
use bitmap::Bitmap;
use card::activity::Activity;
use card::generation::Generation;
use compare::Role;
use protocol::State;
use records::Records;

#[derive(Clone, Copy)]
pub struct Memory {
    pub state: State,
    pub role: Role,
    // The card's generation record and activity record, as they were last written.
    pub generation: Generation,
    pub activity: Activity,
    // The quick-sync bitmap; the card's may be older.
    pub bitmap: Bitmap,
    pub recency: Recency,
    pub records: Records,
    // The number of the next write.
    pub number: u32,
    // The next block to copy, and whether all blocks are to be copied: two facts of a copy, neither of which says if the other counts.
    pub copied: usize,
    pub full: bool,
}
