// A node with its device: what a block write does to it, its death, being told of a cut, and the calls that concern it alone.
// What concerns the peer too is told from the acting node's seat: itself, its peer and the link between them.
#![tactic(auto)]

mod single;
pub mod storing;

use compare::Node;
use memory::Memory;

#[derive(Drop)]
pub struct Station<D> {
    pub memory: Memory,
    pub device: D,
}

// The pair as the acting node sees it.
#[derive(Drop)]
pub struct Seat<'a, D, E, L> {
    pub node: Node,
    pub me: &'a mut Station<D>,
    pub peer: &'a mut Station<E>,
    pub link: &'a mut L,
}
