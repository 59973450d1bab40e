// Who copies to whom when two nodes meet.
#![tactic(auto)]

ghost use Rattle.std.specs.Prelude.{◌≡◌, Err};
ghost use Rattle.refusal.specs.declared.Refusal.TheVariants.{Split};
ghost use Rattle.compare.specs.declared.Word.TheVariants.{NoOne};
ghost use Rattle.compare.specs.Nodes.{number_of, node_numbered};
ghost use Rattle.compare.specs.Meeting.{end_of, word_numbered, gives_way, comparison};
ghost use Rattle.compare.specs.Laws.{other, from_there, Sound, BothWentOn};

mod finding;
mod rule;
mod side;

use finding::End;
use refusal::Refusal;
pub use rule::{Rule, deciding_rule};
pub use side::{Role, Side};
use std::cmp::Ordering;

#[derive(Clone, Copy, PartialEq, Eq, Debug)]
pub enum Node {
    Zero,
    One,
}

// Who gives way in a split brain.
#[derive(Clone, Copy, PartialEq, Eq, Debug)]
pub enum Word {
    NoOne,
    NodeZero,
    NodeOne,
    FewerBits,
}

impl TryFrom<usize> for Node {
    type Error = Refusal;

    ghost try_from_gives = { λ number r. r ≡ node_numbered number };

    fn try_from(number: usize) -> Result<Node, Refusal> {
        match number {
            0 => Ok(Node::Zero),
            1 => Ok(Node::One),
            _ => Err(Refusal::Node),
        }
    }
}

impl From<Node> for usize {
    ghost from_gives = { λ node r. r ≡ number_of node };

    fn from(node: Node) -> usize {
        match node {
            Node::Zero => 0,
            Node::One => 1,
        }
    }
}

impl Node {
    pub fn peer(self) -> Node
        ensures { result ≡ other self }
    {
        match self {
            Node::Zero => Node::One,
            Node::One => Node::Zero,
        }
    }

    // At which end another node is, seen from this one.
    fn end_of(self, other: Node) -> End
        ensures { result ≡ end_of self other }
    {
        if self == other { End::Here } else { End::There }
    }
}

impl TryFrom<u8> for Word {
    type Error = Refusal;

    ghost try_from_gives = { λ number r. r ≡ word_numbered number };

    fn try_from(number: u8) -> Result<Word, Refusal> {
        match number {
            0 => Ok(Word::NoOne),
            1 => Ok(Word::NodeZero),
            2 => Ok(Word::NodeOne),
            3 => Ok(Word::FewerBits),
            _ => Err(Refusal::Word),
        }
    }
}

impl Word {
    // With as many bits set at both ends, it is node 1.
    fn gives_way(self, asking: Node, mine: Side, peer: Side) -> Option<End>
        ensures { result ≡ gives_way self asking mine peer }
    {
        match self {
            Word::NoOne => None,
            Word::NodeZero => Some(asking.end_of(Node::Zero)),
            Word::NodeOne => Some(asking.end_of(Node::One)),
            Word::FewerBits => Some(match mine.bits.cmp(&peer.bits) {
                Ordering::Less => End::Here,
                Ordering::Greater => End::There,
                Ordering::Equal => asking.end_of(Node::One),
            }),
        }
    }
}

// What the asking node, whose side is `mine`, is to do: positive, it is the source; negative, the
// target; 1 copies the blocks that the bitmap marks, 2 copies all. The rules fix these numbers, so that the other end's
// answer is the negation.
pub fn compare(mine: Side, peer: Side, asking: Node, word: Word) -> Result<i32, Refusal>
    ensures answer { result ≡ comparison mine peer asking word }
    ensures mirrored { comparison peer mine (other asking) word ≡ from_there result }
    ensures sound { Sound mine peer result }
    ensures apart { BothWentOn mine peer → word ≡ NoOne → result ≡ Err Split }
{
    deciding_rule(mine, peer)
        .finds(mine, peer)?
        .tested(mine, peer)?
        .settled(word.gives_way(asking, mine, peer), mine, peer)
        .answer()
}
