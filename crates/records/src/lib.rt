// The writes that were accepted and not collected: at most eight, in a queue.
#![tactic(auto)]

ghost use Rattle.std.specs.Prelude.{◌≡◌, [], map, length};
ghost use Rattle.queue.specs.Queue.{oldest, younger};
ghost use Rattle.protocol.specs.Activation.{any_of, waiting, waiting_in, ended, marking, eight, with_record};

use bitmap::Bitmap;
use protocol::{Standing, WriteRecord};
use queue::Ring;
use std::iter::Chain;
use std::slice::Iter;

const EXTENT: usize = 64;

// What stands in a place that was never used.
const UNUSED: WriteRecord = WriteRecord {
    number: 0,
    block: 0,
    standing: Standing::Alone,
};

// The queue's functions stand over borrowed slots, so the places lie beside the ring. Clauses see them as a list by `kept`: a
// model that shows the list alone would not be `Copy`, since a list does not give the places back.
#[derive(Clone, Copy)]
pub struct Records {
    places: [WriteRecord; 8],
    ring: Ring,
    ghost whole: { length places ≡ 8 },
}

impl Records {
    ghost use Rattle.records.specs.Kept.{kept, Gives};

    pub fn none() -> Records
        ensures { kept result ≡ [] }
    {
        Records {
            places: [UNUSED; 8],
            ring: Ring::new(),
        }
    }

    pub fn count(&self) -> usize
        ensures { result ≡ length (kept self.now) }
    {
        self.ring.count(&self.places)
    }

    pub fn is_full(&self) -> bool
        ensures { result ≡ eight (kept self.now) }
    {
        self.count() >= 8
    }

    // One more at the end, where there is room.
    pub fn add(&mut self, accepted: WriteRecord)
        ensures { kept self.new ≡ with_record accepted (kept self.old) }
    {
        self.ring.put(&mut self.places, accepted);
    }

    pub fn oldest(&self) -> Option<WriteRecord>
        ensures { result ≡ oldest (kept self.now) }
    {
        self.ring.look(&self.places, 0)
    }

    pub fn free_oldest(&mut self)
        ensures { kept self.new ≡ younger (kept self.old) }
    {
        self.ring.take(&self.places);
    }

    // All of them, the oldest first.
    fn iter(&self) -> Chain<Iter<'_, WriteRecord>, Iter<'_, WriteRecord>>
        ensures { Gives result (kept self.now) }
    {
        let (front, back) = self.ring.as_slices(&self.places);
        front.iter().chain(back)
    }

    // This search and the next go by places: over `iter` they take more than twice as long.
    pub fn any_waiting(&self) -> bool
        ensures { result ≡ any_of waiting (kept self.now) }
    {
        (0..self.count()).any(|i| {
            self.ring
                .look(&self.places, i)
                .is_some_and(|record| record.standing.is_waiting())
        })
    }

    pub fn any_waiting_in(&self, extent: usize) -> bool
        ensures { result ≡ any_of (waiting_in extent) (kept self.now) }
    {
        (0..self.count()).any(|i| {
            self.ring.look(&self.places, i).is_some_and(|record| record.standing.is_waiting()
                && record.block / EXTENT == extent)
        })
    }

    // Sets the bits of the blocks whose writes wait.
    pub fn mark_waiting(&self, map: &mut Bitmap)
        ensures { map.new.bytes ≡ marking (kept self.now) map.old.bytes }
    {
        for record in self.iter() {
            if record.standing.is_waiting() {
                map.set(record.block);
            }
        }
    }

    // The writes that wait are finished alone. A place out of use means nothing, whatever is done with it.
    pub fn end_waiting(&mut self)
        ensures { kept self.new ≡ map ended (kept self.old) }
    {
        for record in &mut self.places {
            if record.standing.is_waiting() {
                record.standing = Standing::Alone;
            }
        }
    }
}
