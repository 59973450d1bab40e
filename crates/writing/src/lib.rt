// Writing a data block: its extent is made active, the block goes to the card, and while mirroring to the peer.
#![tactic(auto)]

ghost use Rattle.std.specs.Prelude.{◌≡◌};
ghost use Rattle.protocol.specs.World.{data_blocks};
ghost use Rattle.protocol.specs.Changes.{with_link};
ghost use Rattle.protocol.specs.Rules.{crowded, granted, write_tests, slotted, active, posted, accepted, write};
ghost use Rattle.message.specs.Messages.{said_by};
ghost use Rattle.station.specs.Meaning.{site, Leaves, Acts};

use device::Device;
use link::Link;
use message::Message;
use message::encoder::encode;
use protocol::{Placement, Standing, WriteRecord, way_from};
use refusal::Refusal;
use station::Seat;
use station::storing::{ACTIVITY, BITMAP, METADATA, data_blocks};

// The data blocks of an extent.
const EXTENT: usize = 64;

// Where the numbers of writes end: each is below it.
const NUMBERS: u32 = 1_000_000_000;

// Fewer than two places are free on the way to the peer.
fn is_crowded<D: Device, E: Device, L: Link>(seat: &Seat<D, E, L>) -> bool
    ensures { result ≡ crowded seat.now.node (L.Link.means seat.now.link.now).channel }
{
    let waiting = seat.link.count(way_from(seat.node));
    seat.link.capacity().saturating_sub(waiting) < 2
}

// Tested as a read is, and then by what a write alone asks, one by one: a table would work all of it out first.
fn may_write<D: Device, E: Device, L: Link>(
    seat: &Seat<D, E, L>,
    block: usize,
    size: usize,
) -> Result<(), Refusal>
    ensures { result ≡ granted (write_tests seat.now.node block size (site D.Device.means seat.now.me.now) (L.Link.means seat.now.link.now).channel) }
{
    seat.me.may_read(block, size)?;
    let memory = &seat.me.memory;
    if memory.state.is_comparing() {
        return Err(Refusal::Busy);
    }
    if memory.records.is_full() {
        return Err(Refusal::Records);
    }
    if memory.number >= NUMBERS {
        return Err(Refusal::Spent);
    }
    if memory.state.is_mirroring() && is_crowded(seat) {
        return Err(Refusal::Way);
    }
    Ok(())
}

// Puts an extent into a slot, on the card and then in memory.
#[tactic(auto, unfolding(protocol::specs::Rules::slotted))]
fn enter<D: Device, E: Device, L: Link>(
    seat: &mut Seat<D, E, L>,
    slot: usize,
    extent: usize,
) -> Result<(), Refusal>
    ensures { Acts D.Device.means E.Device.means L.Link.means (λ node. slotted node slot extent) seat.old result seat.new }
{
    let mut activity = seat.me.memory.activity;
    activity.enter(slot, extent);
    seat.store(ACTIVITY, &activity.to_block())?;
    seat.me.memory.activate(activity, slot);
    Ok(())
}

// The bits of an extent that gives up its slot are written first: after a crash nothing else would mark its blocks.
#[tactic(auto, unfolding(protocol::specs::Rules::active))]
fn activate<D: Device, E: Device, L: Link>(
    seat: &mut Seat<D, E, L>,
    extent: usize,
    placement: Placement,
) -> Result<(), Refusal>
    ensures { Acts D.Device.means E.Device.means L.Link.means (λ node. active node extent placement) seat.old result seat.new }
{
    match placement {
        Placement::Active { slot } => {
            let activity = seat.me.memory.activity;
            seat.me.memory.activate(activity, slot);
            Ok(())
        }
        Placement::Vacant { slot } => enter(seat, slot, extent),
        Placement::GivenUp { slot } => {
            let map = seat.me.memory.bitmap;
            seat.store(BITMAP, map.as_bytes())?;
            enter(seat, slot, extent)
        }
    }
}

// Sends a message to the peer. What no frame can say, or the link does not take, is not sent.
#[tactic(auto, unfolding(protocol::specs::Rules::posted, message::specs::Frames::goes, message::specs::Frames::write_answer, message::specs::Frames::write_into))]
fn post<D: Device, E: Device, L: Link>(seat: &mut Seat<D, E, L>, message: &Message<'_>)
    ensures { Leaves D.Device.means E.Device.means L.Link.means (λ node w. with_link (posted node (data_blocks w.me.disk) (said_by message.now) w.link) w) seat.old seat.new }
{
    let mut frame = [0; 537];
    if let Some(size) = encode(message, data_blocks(&seat.me.device), &mut frame) {
        let _ = seat.link.send(way_from(seat.node), &frame[0..size]);
    }
}

// The block is on the card: its number is given out, and it waits for the peer, or is marked as written alone.
fn accept<D: Device, E: Device, L: Link>(
    seat: &mut Seat<D, E, L>,
    block: usize,
    bytes: &[u8],
) -> u32
    ensures { Acts D.Device.means E.Device.means L.Link.means (λ node. accepted node block bytes.now) seat.old (Ok result) seat.new }
{
    let number = seat.me.memory.number;
    let standing = if seat.me.memory.state.is_mirroring() {
        let message = Message::Data {
            write: u64::from(number),
            block,
            bytes,
        };
        post(seat, &message);
        Standing::Waiting
    } else {
        seat.me.memory.bitmap.set(block);
        Standing::Alone
    };
    seat.me.memory.records.add(WriteRecord {
        number,
        block,
        standing,
    });
    seat.me.memory.number = number.saturating_add(1).min(NUMBERS);
    number
}

pub fn write<D: Device, E: Device, L: Link>(
    seat: &mut Seat<D, E, L>,
    block: usize,
    bytes: &[u8],
) -> Result<u32, Refusal>
    ensures { Acts D.Device.means E.Device.means L.Link.means (λ node. write node block bytes.now) seat.old result seat.new }
{
    may_write(seat, block, bytes.len())?;
    let extent = block / EXTENT;
    let placement = seat.me.memory.placement(extent).ok_or(Refusal::Slots)?;
    activate(seat, extent, placement)?;
    seat.store(block + METADATA, bytes)?;
    Ok(accept(seat, block, bytes))
}
