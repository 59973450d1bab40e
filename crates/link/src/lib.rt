// Links: two ways of frames between node 0 and node 1. The trait says what every link does; `slot` and `hop` are its makes.
#![tactic(auto)]

pub mod frame;
pub mod hop;
mod lanes;
pub mod slot;

ghost use Rattle.std.specs.Prelude.{◌≡◌, true, false, length};
ghost use Rattle.queue.specs.Queue.{oldest};
ghost use Rattle.link.specs.Channel.{SoundChannel, waiting, send_answer, sent, taken, emptied};
ghost use Rattle.link.specs.Faults.{refusal_of};
ghost use Rattle.link.specs.Makes.{framed};

use crate::frame::Frame;
use refusal::Refusal;

#[derive(Clone, Copy, PartialEq, Eq, Debug)]
pub enum Way {
    ZeroToOne,
    OneToZero,
}

// Why a frame was not sent.
#[derive(Clone, Copy, PartialEq, Eq, Debug)]
pub enum LinkFault {
    Size,
    Closed,
    Full,
}

impl From<LinkFault> for Refusal {
    ghost from_gives = { λ fault r. r ≡ refusal_of fault };

    fn from(fault: LinkFault) -> Refusal {
        match fault {
            LinkFault::Size => Refusal::Measure,
            LinkFault::Closed => Refusal::Nothing,
            LinkFault::Full => Refusal::Way,
        }
    }
}

// A link is open or closed. Each way has its waiting frames, the oldest first, and room for `capacity` of them.
pub trait Link {
    ghost means: { Self → SoundChannel };

    fn is_open(&self) -> bool
        ensures { result ≡ (means self.now).channel.is_open };

    fn capacity(&self) -> usize
        ensures { result ≡ (means self.now).channel.capacity };

    // How many frames wait.
    fn count(&self, way: Way) -> usize
        ensures { result ≡ length (waiting (means self.now).channel way) };

    // One frame more, behind the others of its way.
    fn send(&mut self, way: Way, frame: &[u8]) -> Result<(), LinkFault>
        ensures answer { result ≡ send_answer (means self.old).channel way frame.now }
        ensures after { (means self.new).channel ≡ sent (means self.old).channel way frame.now };

    // The oldest frame of a way, which leaves.
    fn take(&mut self, way: Way) -> Option<Frame>
        ensures answer { framed result ≡ oldest (waiting (means self.old).channel way) }
        ensures after { (means self.new).channel ≡ taken (means self.old).channel way };

    // Empties both ways, and opens.
    fn open(&mut self)
        ensures { (means self.new).channel ≡ emptied (means self.old).channel true };

    // Empties both ways, and closes.
    fn cut(&mut self)
        ensures { (means self.new).channel ≡ emptied (means self.old).channel false };
}
