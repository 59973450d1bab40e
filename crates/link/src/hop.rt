// The hop: a layer over any link that holds four more frames each way.
// Its waiting frames are the lower link's followed by its own.
ghost use Rattle.std.specs.Prelude.{◌≡◌, length, is_ok, MatchResult, nat_le, nat_lt};
ghost use Rattle.refusal.specs.declared.Refusal.TheVariants.{Measure};
ghost use Rattle.link.specs.Channel.{waiting, nothing};
ghost use Rattle.link.specs.Makes.{ways_of, extended, hop_channel, Shifted};
ghost use Rattle.link.specs.Soundness.{hop_means};

use crate::frame::Frame;
use crate::lanes::Lanes;
use crate::{Link, LinkFault, Way};
use refusal::Refusal;

const PLACES: usize = 4;

// The largest capacity below a hop.
const MOST_BELOW: usize = 999_996;

#[derive(Drop)]
pub struct Hop<L> {
    lower: L,
    lanes: Lanes<PLACES>,
}

// No hop was made: why, and the link that was to be below it.
#[derive(Drop)]
pub struct NotMade<L> {
    pub refusal: Refusal,
    pub lower: L,
}

impl<L: Link> Hop<L> {
    #[tactic(auto, unfolding(crate::specs::Makes::hop_channel))]
    pub fn new(lower: L) -> Result<Hop<L>, NotMade<L>>
        ensures when { is_ok result ≡ nat_le (L.Link.means lower).channel.capacity 999996 }
        ensures made { MatchResult result (λ h. (h.lower ≡ lower) × (hop_channel (L.Link.means lower).channel (ways_of h.lanes) ≡ extended (L.Link.means lower).channel nothing) × (extended (L.Link.means lower).channel (ways_of h.lanes) ≡ extended (L.Link.means lower).channel nothing)) (λ e. (e.refusal ≡ Measure) × (e.lower ≡ lower)) }
    {
        if lower.capacity() > MOST_BELOW {
            return Err(NotMade {
                refusal: Refusal::Measure,
                lower,
            });
        }
        Ok(Hop {
            lower,
            lanes: Lanes::new(),
        })
    }

    // The lower link, with the frames that wait on it; the hop's own are let go.
    pub fn into_lower(self) -> L
        ensures { result ≡ self.lower }
    {
        let Hop { lower, lanes: _ } = self;
        lower
    }

    // No hop is made over so large a link: if one were, it would only pass its calls on.
    fn passes(&self) -> bool
        ensures { result ≡ nat_lt 999996 (L.Link.means self.now.lower).channel.capacity }
    {
        self.lower.capacity() > MOST_BELOW
    }

    // Whether the lower link has room.
    fn lower_takes(&self, way: Way) -> bool
        ensures { result ≡ nat_lt (length (waiting (L.Link.means self.now.lower).channel way)) (L.Link.means self.now.lower).channel.capacity }
    {
        self.lower.count(way) < self.lower.capacity()
    }

    // Where its own places are full and the lower link has room, the oldest of its own goes there. What waits stays the same,
    // while the link is open: no such send is refused then.
    #[tactic(auto, using(crate::proofs::Sends::sent_capacity))]
    fn shift(&mut self, way: Way)
        ensures { Shifted (L.Link.means self.old.lower).channel (ways_of self.old.lanes) way (L.Link.means self.new.lower).channel (ways_of self.new.lanes) }
    {
        if self.lanes.count(way) < PLACES || !self.lower_takes(way) {
            return;
        }
        if let Some(frame) = self.lanes.take(way) {
            let _ = self.lower.send(way, frame.bytes());
        }
    }
}

#[tactic(auto, unfolding(crate::specs::Makes::hop_channel))]
impl<L: Link> Link for Hop<L> {
    ghost means = { λ s. hop_means (L.Link.means s.lower) s.lanes };

    fn is_open(&self) -> bool {
        self.lower.is_open()
    }

    fn capacity(&self) -> usize {
        let below = self.lower.capacity();
        // The choice is of the places: clang takes minutes over hops three deep where it is of the sum.
        let more = if below > MOST_BELOW { 0 } else { PLACES };
        below + more
    }

    fn count(&self, way: Way) -> usize {
        let below = self.lower.count(way);
        if self.passes() {
            below
        } else {
            below + self.lanes.count(way)
        }
    }

    #[tactic(auto, using(crate::proofs::Sends::sent_capacity), unfolding(crate::specs::Makes::hop_channel, crate::specs::Channel::send_answer, crate::specs::Channel::sent))]
    fn send(&mut self, way: Way, frame: &[u8]) -> Result<(), LinkFault> {
        // Straight on while nothing of its own waits.
        if self.passes() || (self.lower_takes(way) && self.lanes.count(way) == 0) {
            return self.lower.send(way, frame);
        }
        let frame = Frame::new(frame)?;
        if !self.lower.is_open() {
            return Err(LinkFault::Closed);
        }
        self.shift(way);
        self.lanes.put(way, frame)
    }

    fn take(&mut self, way: Way) -> Option<Frame> {
        if self.passes() || self.lower.count(way) > 0 {
            return self.lower.take(way);
        }
        self.lanes.take(way)
    }

    fn open(&mut self) {
        self.lower.open();
        self.lanes.clear();
    }

    fn cut(&mut self) {
        self.lower.cut();
        self.lanes.clear();
    }
}
