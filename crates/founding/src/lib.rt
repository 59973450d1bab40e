// The calls that start a node and give it its generation and its role.
#![tactic(auto)]

ghost use Rattle.std.specs.Prelude.{◌≡◌};
ghost use Rattle.protocol.specs.Rules.{granted, start_tests, found_tests, promote_tests, demote_tests, start, found, promote, demote};
ghost use Rattle.memory.specs.Meaning.{meaning};
ghost use Rattle.station.specs.Meaning.{Acts};

use card::reading::read_card;
use compare::Role;
use device::Device;
use link::Link;
use memory::Memory;
use memory::generations::{demoted, founded, is_spent, promoted};
use refusal::Refusal;
use station::Seat;
use station::storing::{BITMAP, data_blocks};

// The tests stand one by one, each with its refusal: a table would work all of them out before the first is looked at.

fn may_found(memory: &Memory) -> Result<(), Refusal>
    ensures { result ≡ granted (found_tests (meaning memory.now)) }
{
    if memory.state.is_down() {
        return Err(Refusal::Down);
    }
    if !memory.state.is_apart() {
        return Err(Refusal::Held);
    }
    if memory.generation.current != 0 {
        return Err(Refusal::Founded);
    }
    if is_spent(&memory.generation) {
        return Err(Refusal::Spent);
    }
    Ok(())
}

pub fn found<D: Device, E: Device, L: Link>(seat: &mut Seat<D, E, L>) -> Result<(), Refusal>
    ensures { Acts D.Device.means E.Device.means L.Link.means found seat.old result seat.new }
{
    may_found(&seat.me.memory)?;
    seat.keep_generation(founded(seat.me.memory.generation, seat.node))
}

fn may_promote(memory: &Memory) -> Result<(), Refusal>
    ensures { result ≡ granted (promote_tests (meaning memory.now)) }
{
    if memory.state.is_down() {
        return Err(Refusal::Down);
    }
    if memory.role.is_primary() {
        return Err(Refusal::Role);
    }
    if !memory.state.is_apart() {
        return Err(Refusal::Held);
    }
    if !memory.generation.consistent {
        return Err(Refusal::Inconsistent);
    }
    if is_spent(&memory.generation) {
        return Err(Refusal::Spent);
    }
    Ok(())
}

pub fn promote<D: Device, E: Device, L: Link>(seat: &mut Seat<D, E, L>) -> Result<(), Refusal>
    ensures { Acts D.Device.means E.Device.means L.Link.means promote seat.old result seat.new }
{
    may_promote(&seat.me.memory)?;
    seat.keep_generation(promoted(seat.me.memory.generation, seat.node))?;
    seat.me.memory.role = Role::Primary;
    Ok(())
}

fn may_demote(memory: &Memory) -> Result<(), Refusal>
    ensures { result ≡ granted (demote_tests (meaning memory.now)) }
{
    if memory.state.is_down() {
        return Err(Refusal::Down);
    }
    if !memory.role.is_primary() {
        return Err(Refusal::Role);
    }
    if memory.state.is_comparing() || memory.records.any_waiting() {
        return Err(Refusal::Busy);
    }
    Ok(())
}

// The bitmap goes first, so that the card marks what the peer lacks before it says that no Primary was at work.
pub fn demote<D: Device, E: Device, L: Link>(seat: &mut Seat<D, E, L>) -> Result<(), Refusal>
    ensures { Acts D.Device.means E.Device.means L.Link.means demote seat.old result seat.new }
{
    may_demote(&seat.me.memory)?;
    let map = seat.me.memory.bitmap;
    seat.store(BITMAP, map.as_bytes())?;
    seat.keep_generation(demoted(seat.me.memory.generation))?;
    seat.me.memory.role = Role::Secondary;
    Ok(())
}

// After a crash of a Primary the bitmap, with each extent that was active, is written before the node is up.
pub fn start<D: Device, E: Device, L: Link>(seat: &mut Seat<D, E, L>) -> Result<(), Refusal>
    ensures { Acts D.Device.means E.Device.means L.Link.means start seat.old result seat.new }
{
    if !seat.me.memory.state.is_down() {
        return Err(Refusal::Up);
    }
    let card = read_card(&seat.me.device, seat.node.into())?;
    let memory = Memory::started(&card, data_blocks(&seat.me.device));
    if card.generation.primary {
        seat.store(BITMAP, memory.bitmap.as_bytes())?;
    }
    seat.me.memory = memory;
    Ok(())
}
