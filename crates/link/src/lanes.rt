// The frames that wait each way, at most N of them. Here alone the ways are told apart.
ghost use Rattle.std.specs.Prelude.{◌≡◌, length};

use crate::frame::Frame;
use crate::{LinkFault, Way};
use queue::Ring;

// One way's frames: a ring over slots of its own.
// No `impl Model` shows it as a list of bytes: a link's meaning holds the proof that its frames are sound, which the fields give.
#[derive(Drop)]
pub struct Lane<const N: usize> {
    frames: [Frame; N],
    ring: Ring,
    ghost places: { length frames ≡ N },
}

impl<const N: usize> Lane<N> {
    ghost use Rattle.std.specs.Prelude.{[], ◌∷◌, ◌++◌, if◌then◌else◌, is_ok};
    ghost use Rattle.queue.specs.Queue.{oldest, younger};
    ghost use Rattle.link.specs.Makes.{bytes_of, framed, lane_frames, room_answer};

    #[tactic(auto, unfolding(queue::specs::Queue::contents))]
    fn new() -> Lane<N>
        ensures { lane_frames result ≡ [] }
    {
        Lane {
            frames: [Frame::blank(); N],
            ring: Ring::new(),
        }
    }

    #[tactic(auto, unfolding(queue::specs::Queue::contents))]
    fn clear(&mut self)
        ensures { lane_frames self.new ≡ [] }
    {
        self.ring.clear();
    }

    fn count(&self) -> usize
        ensures { result ≡ length (lane_frames self.now) }
    {
        self.ring.count(&self.frames)
    }

    fn put(&mut self, frame: Frame) -> Result<(), LinkFault>
        ensures answer { result ≡ room_answer (length (lane_frames self.old)) N }
        ensures after { lane_frames self.new ≡ (if is_ok result then lane_frames self.old ++ bytes_of frame ∷ [] else lane_frames self.old) }
    {
        self.ring
            .put(&mut self.frames, frame)
            .then_some(())
            .ok_or(LinkFault::Full)
    }

    fn take(&mut self) -> Option<Frame>
        ensures answer { framed result ≡ oldest (lane_frames self.old) }
        ensures after { lane_frames self.new ≡ younger (lane_frames self.old) }
    {
        self.ring.take(&self.frames)
    }
}

// Both ways.
#[derive(Drop)]
pub struct Lanes<const N: usize> {
    ahead: Lane<N>,
    back: Lane<N>,
}

impl<const N: usize> Lanes<N> {
    ghost use Rattle.std.specs.Borrow.{sem};
    ghost use Rattle.std.specs.Prelude.{if◌then◌else◌, is_ok};
    ghost use Rattle.queue.specs.Queue.{oldest};
    ghost use Rattle.link.specs.Channel.{queued, one_more, one_less, nothing};
    ghost use Rattle.link.specs.Lends.{lane_of, lends_lane};
    ghost use Rattle.link.specs.Makes.{bytes_of, framed, ways_of, room_answer};

    pub fn new() -> Lanes<N>
        ensures { ways_of result ≡ nothing }
    {
        Lanes {
            ahead: Lane::new(),
            back: Lane::new(),
        }
    }

    pub fn clear(&mut self)
        ensures { ways_of self.new ≡ nothing }
    {
        self.ahead.clear();
        self.back.clear();
    }

    pub fn count(&self, way: Way) -> usize
        ensures { result ≡ length (queued (ways_of self.now) way) }
    {
        self.lane(way).count()
    }

    // One frame more at the end of a way, if there is room.
    pub fn put(&mut self, way: Way, frame: Frame) -> Result<(), LinkFault>
        ensures answer { result ≡ room_answer (length (queued (ways_of self.old) way)) N }
        ensures after { ways_of self.new ≡ (if is_ok result then one_more (ways_of self.old) way (bytes_of frame) else ways_of self.old) }
    {
        self.lane_mut(way).put(frame)
    }

    // The oldest frame of a way, which leaves.
    pub fn take(&mut self, way: Way) -> Option<Frame>
        ensures answer { framed result ≡ oldest (queued (ways_of self.old) way) }
        ensures after { ways_of self.new ≡ one_less (ways_of self.old) way }
    {
        self.lane_mut(way).take()
    }

    fn lane(&self, way: Way) -> &Lane<N>
        ensures { result.now ≡ lane_of self.now way }
    {
        match way {
            Way::ZeroToOne => &self.ahead,
            Way::OneToZero => &self.back,
        }
    }

    fn lane_mut(&mut self, way: Way) -> &mut Lane<N>
        ensures* lends { sem 𝓛 (lends_lane N.row self.entry way result) }
        ensures value { result.now ≡ lane_of self.old way }
    {
        match way {
            Way::ZeroToOne => &mut self.ahead,
            Way::OneToZero => &mut self.back,
        }
    }
}
