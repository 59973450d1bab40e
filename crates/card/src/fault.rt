// A fault in a card's metadata on its way up: from a field or a byte, by its block and its node, to the refusal that is told.
ghost use Rattle.std.specs.Prelude.{◌≡◌};
ghost use Rattle.card.specs.Faults.{in_record, of_record, of_bitmap, at_node, refusal_of};

use bitmap::BitmapFault;
use field::FieldFault;
use refusal::Refusal;

// The first wrong byte of the record in that block, or the first byte of its first wrong field.
#[derive(Clone, Copy, PartialEq, Eq, Debug)]
pub struct RecordFault<const BLOCK: usize> {
    pub byte: usize,
}

pub type GenerationFault = RecordFault<0>;

pub type ActivityFault = RecordFault<1>;

#[derive(Clone, Copy, PartialEq, Eq, Debug)]
pub struct MetaFault {
    pub block: usize,
    pub byte: usize,
}

#[derive(Clone, Copy, PartialEq, Eq, Debug)]
pub struct NodeFault {
    pub node: usize,
    pub block: usize,
    pub byte: usize,
}

impl<const BLOCK: usize> From<FieldFault> for RecordFault<BLOCK> {
    ghost from_gives = { λ f r. r ≡ in_record BLOCK f };

    fn from(fault: FieldFault) -> RecordFault<BLOCK> {
        RecordFault { byte: fault.at }
    }
}

impl<const BLOCK: usize> From<RecordFault<BLOCK>> for MetaFault {
    ghost from_gives = { λ f r. r ≡ of_record BLOCK f };

    fn from(fault: RecordFault<BLOCK>) -> MetaFault {
        MetaFault {
            block: BLOCK,
            byte: fault.byte,
        }
    }
}

impl From<BitmapFault> for MetaFault {
    ghost from_gives = { λ f r. r ≡ of_bitmap f };

    fn from(fault: BitmapFault) -> MetaFault {
        MetaFault {
            block: 2,
            byte: fault.byte,
        }
    }
}

// The node is known where its card is read.
impl From<(usize, MetaFault)> for NodeFault {
    ghost from_gives = { λ f r. r ≡ at_node f.0 f.1 };

    fn from((node, fault): (usize, MetaFault)) -> NodeFault {
        let MetaFault { block, byte } = fault;
        NodeFault { node, block, byte }
    }
}

impl From<NodeFault> for Refusal {
    ghost from_gives = { λ f r. r ≡ refusal_of f };

    fn from(fault: NodeFault) -> Refusal {
        Refusal::Meta {
            node: fault.node,
            block: fault.block,
            byte: fault.byte,
        }
    }
}
