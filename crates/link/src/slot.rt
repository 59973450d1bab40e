// The slot link: eight frames each way.
ghost use Rattle.std.specs.Prelude.{◌≡◌, false};
ghost use Rattle.link.specs.Channel.{nothing};
ghost use Rattle.link.specs.Makes.{slot_channel};
ghost use Rattle.link.specs.Soundness.{slot_means};

use crate::frame::Frame;
use crate::lanes::Lanes;
use crate::{Link, LinkFault, Way};

const PLACES: usize = 8;

#[derive(Drop)]
pub struct SlotLink {
    // A flag, and no `Option` of the lanes: to open clears two rings in place, where new lanes would write sixteen frames.
    on: bool,
    lanes: Lanes<PLACES>,
}

impl SlotLink {
    // A closed link on which nothing waits.
    pub fn new() -> SlotLink
        ensures { slot_channel result.on result.lanes ≡ record { is_open = false; waits = nothing; capacity = 8 } }
    {
        SlotLink {
            on: false,
            lanes: Lanes::new(),
        }
    }

    fn empty(&mut self, on: bool)
        ensures { slot_channel self.new.on self.new.lanes ≡ record { is_open = on; waits = nothing; capacity = 8 } }
    {
        self.on = on;
        self.lanes.clear();
    }
}

impl Link for SlotLink {
    ghost means = { λ s. slot_means s.on s.lanes };

    fn is_open(&self) -> bool {
        self.on
    }

    fn capacity(&self) -> usize {
        PLACES
    }

    fn count(&self, way: Way) -> usize {
        self.lanes.count(way)
    }

    #[tactic(auto, unfolding(crate::specs::Channel::send_answer, crate::specs::Channel::sent))]
    fn send(&mut self, way: Way, frame: &[u8]) -> Result<(), LinkFault> {
        let frame = Frame::new(frame)?;
        if !self.on {
            return Err(LinkFault::Closed);
        }
        self.lanes.put(way, frame)
    }

    fn take(&mut self, way: Way) -> Option<Frame> {
        self.lanes.take(way)
    }

    fn open(&mut self) {
        self.empty(true);
    }

    fn cut(&mut self) {
        self.empty(false);
    }
}
