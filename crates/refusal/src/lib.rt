// The refusals: every way in which a call ends without having done what was asked of it.
#![tactic(auto)]

ghost use Rattle.std.specs.Prelude.{◌≡◌, Some};
ghost use Rattle.refusal.specs.Refusals.{number_of, name_of, text_of};

use std::fmt;

// Numbers 7 and 14 were never given out.
#[derive(Clone, Copy, PartialEq, Eq, Debug)]
pub enum Refusal {
    Node,
    Measure,
    Block,
    Word,
    // A card's metadata: the first wrong byte, or the first byte of the first wrong field.
    Meta {
        node: usize,
        block: usize,
        byte: usize,
    },
    // A frame, likewise; for a wrong length, the shorter of the two lengths.
    Frame {
        byte: usize,
    },
    Down,
    Up,
    Held,
    Role,
    Inconsistent,
    Busy,
    Way,
    Records,
    Slots,
    Nothing,
    Waiting,
    Spent,
    Founded,
    Order,
    Died,
    Split,
    Unrelated,
    Blank,
    NoSource,
}

impl Refusal {
    pub fn number(self) -> u8
        ensures { result ≡ number_of self }
    {
        match self {
            Refusal::Node => 1,
            Refusal::Measure => 2,
            Refusal::Block => 3,
            Refusal::Word => 4,
            Refusal::Meta { .. } => 5,
            Refusal::Frame { .. } => 6,
            Refusal::Down => 8,
            Refusal::Up => 9,
            Refusal::Held => 10,
            Refusal::Role => 11,
            Refusal::Inconsistent => 12,
            Refusal::Busy => 13,
            Refusal::Way => 15,
            Refusal::Records => 16,
            Refusal::Slots => 17,
            Refusal::Nothing => 18,
            Refusal::Waiting => 19,
            Refusal::Spent => 20,
            Refusal::Founded => 21,
            Refusal::Order => 22,
            Refusal::Died => 23,
            Refusal::Split => 24,
            Refusal::Unrelated => 25,
            Refusal::Blank => 26,
            Refusal::NoSource => 27,
        }
    }

    pub fn name(self) -> &'static str
        ensures { result.now ≡ name_of self }
    {
        match self {
            Refusal::Node => "Node",
            Refusal::Measure => "Measure",
            Refusal::Block => "Block",
            Refusal::Word => "Word",
            Refusal::Meta { .. } => "Meta",
            Refusal::Frame { .. } => "Frame",
            Refusal::Down => "Down",
            Refusal::Up => "Up",
            Refusal::Held => "Held",
            Refusal::Role => "Role",
            Refusal::Inconsistent => "Inconsistent",
            Refusal::Busy => "Busy",
            Refusal::Way => "Way",
            Refusal::Records => "Records",
            Refusal::Slots => "Slots",
            Refusal::Nothing => "Nothing",
            Refusal::Waiting => "Waiting",
            Refusal::Spent => "Spent",
            Refusal::Founded => "Founded",
            Refusal::Order => "Order",
            Refusal::Died => "Died",
            Refusal::Split => "Split",
            Refusal::Unrelated => "Unrelated",
            Refusal::Blank => "Blank",
            Refusal::NoSource => "NoSource",
        }
    }
}

// As an answer is told: `refused 8 Down`, with the place after a Meta or a Frame.
impl fmt::Display for Refusal {
    ghost output = { λ r. Some (text_of r) };

    fn fmt<W: fmt::Write>(&self, f: &mut fmt::Formatter<W>) -> fmt::Result {
        write!(f, "refused {} {}", self.number(), self.name())?;
        match *self {
            Refusal::Meta { node, block, byte } => {
                write!(f, " node {node} block {block} byte {byte}")
            }
            Refusal::Frame { byte } => write!(f, " byte {byte}"),
            _ => Ok(()),
        }
    }
}
