// The words in which the pair's calls are told: a node's states, its write records, and what a call answers.
// The rules of the calls stand in specs/: `Rules` has one definition for each call, `World` what they speak of.
#![tactic(auto)]

ghost use Rattle.std.specs.Prelude.{◌≡◌, Some};
ghost use Rattle.protocol.specs.Words.{state_number, state_name, standing_name, is_down, is_apart, connected, compares, mirrors, waits};
ghost use Rattle.protocol.specs.World.{way_from};
ghost use Rattle.protocol.specs.Rules.{handed};

use compare::{Node, Role};
use link::Way;
use std::fmt;

#[derive(Clone, Copy, PartialEq, Eq, Debug)]
pub enum State {
    Down = 0,
    // Up, with no peer connected.
    Apart = 1,
    // The comparing states: who copies to whom is being found out.
    Comparing = 2,
    AwaitBits = 3,
    AwaitStart = 4,
    // The source of a copy: before it, at it, and after its last block.
    Starting = 5,
    Source = 6,
    Ending = 7,
    Target = 8,
    Joined = 9,
}

impl State {
    pub fn number(self) -> u8
        ensures { result ≡ state_number self }
    {
        self as u8
    }

    pub fn name(self) -> &'static str
        ensures { result.now ≡ state_name self }
    {
        match self {
            State::Down => "Down",
            State::Apart => "Apart",
            State::Comparing => "Comparing",
            State::AwaitBits => "AwaitBits",
            State::AwaitStart => "AwaitStart",
            State::Starting => "Starting",
            State::Source => "Source",
            State::Ending => "Ending",
            State::Target => "Target",
            State::Joined => "Joined",
        }
    }

    pub fn is_down(self) -> bool
        ensures { result ≡ is_down self }
    {
        self == State::Down
    }

    pub fn is_apart(self) -> bool
        ensures { result ≡ is_apart self }
    {
        self == State::Apart
    }

    pub fn is_connected(self) -> bool
        ensures { result ≡ connected self }
    {
        !matches!(self, State::Down | State::Apart)
    }

    pub fn is_comparing(self) -> bool
        ensures { result ≡ compares self }
    {
        matches!(
            self,
            State::Comparing | State::AwaitBits | State::AwaitStart
        )
    }

    // In these states a write goes to the peer as well.
    pub fn is_mirroring(self) -> bool
        ensures { result ≡ mirrors self }
    {
        matches!(
            self,
            State::Starting | State::Source | State::Ending | State::Joined
        )
    }
}

impl fmt::Display for State {
    ghost output = { λ state. Some (state_name state) };

    fn fmt<W: fmt::Write>(&self, f: &mut fmt::Formatter<W>) -> fmt::Result {
        f.write_str(State::name(*self))
    }
}

// Where a write has got to: it waits for the peer, or it is finished on its own card alone, or on both.
#[derive(Clone, Copy, PartialEq, Eq, Debug)]
pub enum Standing {
    Waiting,
    Alone,
    Both,
}

impl Standing {
    pub fn name(self) -> &'static str
        ensures { result.now ≡ standing_name self }
    {
        match self {
            Standing::Waiting => "waiting",
            Standing::Alone => "alone",
            Standing::Both => "both",
        }
    }

    pub fn is_waiting(self) -> bool
        ensures { result ≡ waits self }
    {
        self == Standing::Waiting
    }
}

impl fmt::Display for Standing {
    ghost output = { λ standing. Some (standing_name standing) };

    fn fmt<W: fmt::Write>(&self, f: &mut fmt::Formatter<W>) -> fmt::Result {
        f.write_str(Standing::name(*self))
    }
}

// A write that was accepted and not yet collected.
#[derive(Clone, Copy, PartialEq, Eq, Debug)]
pub struct WriteRecord {
    pub number: u32,
    pub block: usize,
    pub standing: Standing,
}

// What `collect` answers: the record without its block.
#[derive(Clone, Copy, PartialEq, Eq, Debug)]
pub struct Collected {
    pub number: u32,
    pub standing: Standing,
}

impl From<WriteRecord> for Collected {
    ghost from_gives = { λ r c. c ≡ handed r };

    fn from(record: WriteRecord) -> Collected {
        Collected {
            number: record.number,
            standing: record.standing,
        }
    }
}

// Where a write's extent stands among the slots of the activity record, or is to stand.
#[derive(Clone, Copy, PartialEq, Eq, Debug)]
pub enum Placement {
    Active { slot: usize },
    Vacant { slot: usize },
    // Another extent gives up the slot.
    GivenUp { slot: usize },
}

// What `status` answers.
#[derive(Clone, Copy, PartialEq, Eq, Debug)]
pub struct Status {
    pub state: State,
    pub role: Role,
}

// The way on which a node sends. Both types are other crates', so no From between them can stand here.
pub fn way_from(node: Node) -> Way
    ensures { result ≡ way_from node }
{
    match node {
        Node::Zero => Way::ZeroToOne,
        Node::One => Way::OneToZero,
    }
}
