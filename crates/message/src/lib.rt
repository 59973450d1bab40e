// What the two nodes say to each other: a frame is a letter, its fields of twelve columns each, and its bytes.
#![tactic(auto)]

ghost use Rattle.std.specs.Prelude.{◌≡◌};
ghost use Rattle.message.specs.Messages.{refusal_of};
ghost use Rattle.message.specs.Rows.{fault_of};

use compare::Side;
use field::FieldFault;
use refusal::Refusal;

pub mod decoder;
pub mod encoder;
mod limits;

// The bytes of a data block, and of a bitmap.
const BLOCK: usize = 512;

// Bytes are not copied out of the frame: a message lasts as long as the frame that it was read from.
#[derive(Clone, Copy)]
pub enum Message<'a> {
    // A node's side of the comparison, and the operator's word: any number, since `encode` and `decode` refuse what is no word.
    Report {
        side: Side,
        word: u64,
    },
    // The generation that the target takes over.
    Start {
        current: u64,
        recent: u64,
        older: u64,
    },
    Bits {
        bytes: &'a [u8],
    },
    // A write, and the block that it wrote.
    Data {
        write: u64,
        block: usize,
        bytes: &'a [u8],
    },
    // A block of the resync.
    Copy {
        block: usize,
        bytes: &'a [u8],
    },
    // The write of that number is on the peer's card.
    Written {
        write: u64,
    },
    // The copy of that block is on the peer's card.
    Landed {
        block: usize,
    },
    Adopted,
    Finish,
    Whole,
}

// The first wrong byte of a frame: the first byte of a wrong field; for a wrong length, the shorter of the two lengths.
#[derive(Clone, Copy, PartialEq, Eq, Debug)]
pub struct FrameFault {
    pub byte: usize,
}

impl From<FieldFault> for FrameFault {
    ghost from_gives = { λ field fault. fault ≡ fault_of field };

    fn from(field: FieldFault) -> FrameFault {
        FrameFault { byte: field.at }
    }
}

impl From<FrameFault> for Refusal {
    ghost from_gives = { λ fault refusal. refusal ≡ refusal_of fault };

    fn from(fault: FrameFault) -> Refusal {
        Refusal::Frame { byte: fault.byte }
    }
}
