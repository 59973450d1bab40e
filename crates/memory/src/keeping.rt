// What is done with a node's memory.
ghost use Rattle.std.specs.Prelude.{◌≡◌};
ghost use Rattle.card.specs.Reading.{contents};
ghost use Rattle.protocol.specs.World.{nothing};
ghost use Rattle.protocol.specs.Rules.{parted, goes_on, started, without_oldest};
ghost use Rattle.protocol.specs.Activation.{slot_of, vacant_slot, idle_place, placement_of, activated};
ghost use Rattle.memory.specs.Meaning.{meaning, slots_used, is_idle, can_give_up};
ghost use Rattle.records.specs.Kept.{kept};

use crate::Memory;
use crate::recency::Recency;
use bitmap::Bitmap;
use card::activity::Activity;
use card::generation::Generation;
use card::reading::Card;
use compare::Role;
use protocol::{Placement, State};
use records::Records;

const SLOTS: usize = 16;

impl Memory {
    // A node that is down keeps nothing.
    pub fn none() -> Memory
        ensures { meaning result ≡ nothing }
    {
        Memory {
            state: State::Down,
            role: Role::Secondary,
            generation: Generation::fresh(0, 0),
            activity: Activity::empty(),
            bitmap: Bitmap::new(),
            recency: Recency::in_turn(),
            records: Records::none(),
            number: 1,
            copied: 0,
            full: false,
        }
    }

    // A node that has started from its card, as a Secondary with no peer. After a crash of a Primary each extent that
    // was active may differ from the peer's.
    pub fn started(card: &Card, blocks: usize) -> Memory
        ensures { meaning result ≡ started blocks (contents card.now) }
    {
        let mut bitmap = card.bitmap;
        if card.generation.primary {
            card.activity.mark(&mut bitmap, blocks);
        }
        Memory {
            state: State::Apart,
            generation: card.generation,
            activity: card.activity,
            bitmap,
            ..Memory::none()
        }
    }

    // A Primary that is cut off with no bitmap generation goes on under a new one.
    pub fn goes_on(&self) -> bool
        ensures { result ≡ goes_on (meaning self.now) }
    {
        self.role.is_primary() && self.generation.bitmap == 0
    }

    // Apart from the peer: the writes that waited are finished alone, and the bitmap marks their blocks.
    pub fn part(&mut self)
        ensures { meaning self.new ≡ parted (meaning self.old) }
    {
        self.state = State::Apart;
        self.records.mark_waiting(&mut self.bitmap);
        self.records.end_waiting();
    }

    // How many slots of the activity record are in use.
    fn slot_count(&self) -> usize
        ensures { result ≡ slots_used self.now }
    {
        (self.generation.slots as usize).min(SLOTS)
    }

    fn slot_of(&self, extent: usize) -> Option<usize>
        ensures { result ≡ slot_of self.now.activity.slots extent }
    {
        (0..SLOTS).find(|&slot| {
            self.activity
                .extent_in(slot)
                .is_some_and(|held| held as usize == extent)
        })
    }

    fn vacant_slot(&self) -> Option<usize>
        ensures { result ≡ vacant_slot self.now.activity.slots (slots_used self.now) }
    {
        (0..self.slot_count()).find(|&slot| self.activity.extent_in(slot).is_none())
    }

    // Whether no write waits in the slot's extent.
    fn is_idle(&self, slot: usize) -> bool
        ensures { result ≡ is_idle self.now slot }
    {
        self.activity
            .extent_in(slot)
            .is_none_or(|extent| !self.records.any_waiting_in(extent as usize))
    }

    fn can_give_up(&self, slot: usize) -> bool
        ensures { result ≡ can_give_up self.now slot }
    {
        slot < self.slot_count() && self.is_idle(slot)
    }

    // The place, in the order of use, of the least recent slot that can be given up.
    fn idle_place(&self) -> Option<usize>
        ensures { result ≡ idle_place self.now.activity.slots (slots_used self.now) self.now.recency.order (kept self.now.records) }
    {
        (0..SLOTS).find(|&place| self.can_give_up(self.recency.slot_at(place)))
    }

    // Where an extent's slot is, or is to be; none where each slot's extent has a waiting write.
    pub fn placement(&self, extent: usize) -> Option<Placement>
        ensures { result ≡ placement_of (meaning self.now) extent }
    {
        self.slot_of(extent)
            .map(|slot| Placement::Active { slot })
            .or_else(|| self.vacant_slot().map(|slot| Placement::Vacant { slot }))
            .or_else(|| {
                self.idle_place().map(|place| Placement::GivenUp {
                    slot: self.recency.slot_at(place),
                })
            })
    }

    // The activity record as it now is on the card, with a slot that has become the most recent.
    pub fn activate(&mut self, activity: Activity, slot: usize)
        ensures { meaning self.new ≡ activated activity.slots slot (meaning self.old) }
    {
        self.activity = activity;
        self.recency.touch(slot);
    }

    // Frees the record of the oldest write.
    pub fn free_oldest(&mut self)
        ensures { meaning self.new ≡ without_oldest (meaning self.old) }
    {
        self.records.free_oldest();
    }
}
