// The calls on either node, by its number.
ghost use Rattle.std.specs.Prelude.{◌≡◌};
ghost use Rattle.protocol.specs.Step.{said, said_done, numbered, filled, collected, standing, read_by};
ghost use Rattle.protocol.specs.Step as call;
ghost use Rattle.compare.specs.Nodes.{node_numbered};
ghost use Rattle.pair.specs.Meaning.{Does, world};

use crate::Pair;
use compare::Node;
use device::Device;
use founding::{demote, found, promote, start};
use link::Link;
use protocol::{Collected, Status};
use refusal::Refusal;
use station::Seat;
use writing::write;

// A node is given by a number, and another number than 0 or 1 is refused here: the callers are scripts.

// The two stations differ in type, so no closure can take either: a call on one of them is a macro.

// A call from the seat of the node of a number.
macro_rules! from_node {
    ($pair:ident, $number:expr, $call:path $(, $argument:expr)*) => {
        match Node::try_from($number)? {
            Node::Zero => $call(&mut Seat::new(Node::Zero, &mut $pair.zero, &mut $pair.one, &mut $pair.link) $(, $argument)*),
            Node::One => $call(&mut Seat::new(Node::One, &mut $pair.one, &mut $pair.zero, &mut $pair.link) $(, $argument)*),
        }
    };
}

// A call that concerns the node of a number alone.
macro_rules! on_node {
    ($pair:ident, $number:expr, $call:ident $(, $argument:expr)*) => {
        match Node::try_from($number)? {
            Node::Zero => $pair.zero.$call($($argument),*),
            Node::One => $pair.one.$call($($argument),*),
        }
    };
}

impl<A: Device, B: Device, L: Link> Pair<A, B, L> {
    // Sets the block writes that the node's power still carries.
    pub fn power(&mut self, node: usize, supply: u32) -> Result<(), Refusal>
        ensures { Does A.Device.means B.Device.means L.Link.means (call.power node supply) self.old (said_done result) self.new }
    {
        on_node!(self, node, power, supply)
    }

    // Puts the node down, as a failing write does.
    pub fn kill(&mut self, node: usize) -> Result<(), Refusal>
        ensures { Does A.Device.means B.Device.means L.Link.means (call.kill node) self.old (said_done result) self.new }
    {
        from_node!(self, node, Seat::kill)
    }

    pub fn start(&mut self, node: usize) -> Result<(), Refusal>
        ensures { Does A.Device.means B.Device.means L.Link.means (call.start node) self.old (said_done result) self.new }
    {
        from_node!(self, node, start)
    }

    pub fn found(&mut self, node: usize) -> Result<(), Refusal>
        ensures { Does A.Device.means B.Device.means L.Link.means (call.found node) self.old (said_done result) self.new }
    {
        from_node!(self, node, found)
    }

    pub fn promote(&mut self, node: usize) -> Result<(), Refusal>
        ensures { Does A.Device.means B.Device.means L.Link.means (call.promote node) self.old (said_done result) self.new }
    {
        from_node!(self, node, promote)
    }

    pub fn demote(&mut self, node: usize) -> Result<(), Refusal>
        ensures { Does A.Device.means B.Device.means L.Link.means (call.demote node) self.old (said_done result) self.new }
    {
        from_node!(self, node, demote)
    }

    // Cuts the link and tells both nodes.
    pub fn cut(&mut self) -> Result<(), Refusal>
        ensures { Does A.Device.means B.Device.means L.Link.means call.cut self.old (said_done result) self.new }
    {
        if !self.link.is_open() {
            return Err(Refusal::Nothing);
        }
        self.link.cut();
        self.zero.tell(Node::Zero);
        self.one.tell(Node::One);
        Ok(())
    }

    // Answers the write's number.
    pub fn write(&mut self, node: usize, block: usize, bytes: &[u8]) -> Result<u32, Refusal>
        ensures { Does A.Device.means B.Device.means L.Link.means (call.write node block bytes.now) self.old (said numbered result) self.new }
    {
        from_node!(self, node, write, block, bytes)
    }

    // Fills the buffer with a data block of the node's card; a refusal leaves it as it was.
    pub fn read(&self, node: usize, block: usize, buffer: &mut [u8]) -> Result<(), Refusal>
        ensures does { Does A.Device.means B.Device.means L.Link.means (call.read node block buffer.old) self.now (said (λ _. filled buffer.new) result) self.now }
        ensures bytes { buffer.new ≡ (read_by (node_numbered node) block buffer.old (world A.Device.means B.Device.means L.Link.means self.now)).1 }
    {
        on_node!(self, node, read, block, buffer)
    }

    // Answers the oldest write that is finished, and frees its record.
    pub fn collect(&mut self, node: usize) -> Result<Collected, Refusal>
        ensures { Does A.Device.means B.Device.means L.Link.means (call.collect node) self.old (said collected result) self.new }
    {
        on_node!(self, node, collect)
    }

    pub fn status(&self, node: usize) -> Result<Status, Refusal>
        ensures { Does A.Device.means B.Device.means L.Link.means (call.status node) self.now (said standing result) self.now }
    {
        Ok(on_node!(self, node, status))
    }
}
