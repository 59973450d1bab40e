// What happens to a node and its device: a block write, death, and being told of a cut.
ghost use Rattle.std.specs.Prelude.{◌≡◌};
ghost use Rattle.protocol.specs.World.{data_blocks};
ghost use Rattle.protocol.specs.Rules.{told, fallen, kill, recorded};
ghost use Rattle.station.specs.Meaning.{site, store, Leaves, Acts};

use crate::{Seat, Station};
use card::generation::Generation;
use compare::Node;
use device::Device;
use link::Link;
use memory::Memory;
use memory::generations::advanced;
use refusal::Refusal;

// Which block of a device holds which metadata; the data blocks come after them.
pub const GENERATION: usize = 0;

pub const ACTIVITY: usize = 1;

pub const BITMAP: usize = 2;

pub const METADATA: usize = 3;

// How many data blocks a device has.
pub fn data_blocks<D: Device>(device: &D) -> usize
    ensures { result ≡ data_blocks (D.Device.means device.now).disk }
{
    device.count().saturating_sub(METADATA).min(4096)
}

impl<D: Device> Station<D> {
    // Told that the link is cut. A Primary may have to write a new generation first; dying at that, it was never apart.
    pub fn tell(&mut self, node: Node)
        ensures { site D.Device.means self.new ≡ told node (site D.Device.means self.old) }
    {
        if !self.memory.state.is_connected() {
            return;
        }
        if self.memory.goes_on() {
            let generation = advanced(self.memory.generation, node);
            let Ok(()) = self.device.write(GENERATION, &generation.to_block()) else {
                self.memory = Memory::none();
                return;
            };
            self.memory.generation = generation;
        }
        self.memory.part();
    }
}

impl<'a, D: Device, E: Device, L: Link> Seat<'a, D, E, L> {
    pub fn new(
        node: Node,
        me: &'a mut Station<D>,
        peer: &'a mut Station<E>,
        link: &'a mut L,
    ) -> Seat<'a, D, E, L>
        ensures { result ≡ record { node = node; me = me.entry; peer = peer.entry; link = link.entry } }
    {
        Seat {
            node,
            me,
            peer,
            link,
        }
    }

    // The acting node is down: its card is all that is left, the link is cut, and the peer is told.
    pub fn fall(&mut self)
        ensures { Leaves D.Device.means E.Device.means L.Link.means fallen self.old self.new }
    {
        self.me.memory = Memory::none();
        self.link.cut();
        self.peer.tell(self.node.peer());
    }

    pub fn kill(&mut self) -> Result<(), Refusal>
        ensures { Acts D.Device.means E.Device.means L.Link.means kill self.old result self.new }
    {
        if self.me.memory.state.is_down() {
            return Err(Refusal::Down);
        }
        self.fall();
        Ok(())
    }

    // Writes a block of the acting node's device; a write that the device refuses is the node's death.
    #[tactic(auto, unfolding(protocol::specs::Rules::store_answer, protocol::specs::Rules::stored))]
    pub fn store(&mut self, block: usize, bytes: &[u8]) -> Result<(), Refusal>
        ensures { Acts D.Device.means E.Device.means L.Link.means (store block bytes.now) self.old result self.new }
    {
        let Ok(()) = self.me.device.write(block, bytes) else {
            self.fall();
            return Err(Refusal::Died);
        };
        Ok(())
    }

    // A new generation record, on the card and then in memory.
    #[tactic(auto, unfolding(protocol::specs::Rules::recorded))]
    pub fn keep_generation(&mut self, generation: Generation) -> Result<(), Refusal>
        ensures { Acts D.Device.means E.Device.means L.Link.means (λ node. recorded node generation) self.old result self.new }
    {
        self.store(GENERATION, &generation.to_block())?;
        self.me.memory.generation = generation;
        Ok(())
    }
}
