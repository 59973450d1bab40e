// Two nodes that keep the same data blocks, each on a device of its own, over one link.
// Written once over every device and link, and once for both nodes: a call is told from the acting node's side.
#![tactic(auto)]

mod calls;
mod making;

use station::Station;

#[derive(Drop)]
pub struct Pair<A, B, L> {
    pub zero: Station<A>,
    pub one: Station<B>,
    pub link: L,
}

// Devices and a link of which no pair can be made, handed back as they were.
#[derive(Drop)]
pub struct Unpaired<A, B, L> {
    pub zero: A,
    pub one: B,
    pub link: L,
}
