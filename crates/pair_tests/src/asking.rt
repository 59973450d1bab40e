// What the tables ask of a pair, and what is answered.
use card::generation::Generation;
use card::making::create;
use device::Device;
use device::flat::Flat;
use device::image::Image;
use link::Link;
use link::hop::Hop;
use link::slot::SlotLink;
use pair::Pair;
use protocol::{Collected, Standing, State, Status};
use refusal::Refusal;
use std::alloc::Global;
use std::process::Abort;
use std::test::Fail;

// 257 data blocks: four extents, and a fifth of one block. Four slots.
const COUNT: usize = 260;

const SLOTS: usize = 4;

// What a buffer holds before a read.
const UNREAD: u8 = 0xEE;

#[derive(Clone, Copy)]
pub enum Ask {
    Power(usize, u32),
    Kill(usize),
    Start(usize),
    Found(usize),
    Promote(usize),
    Demote(usize),
    Cut,
    // A block, the byte that fills it, and how many bytes there are.
    Write(usize, usize, u8, usize),
    Read(usize, usize, usize),
    Collect(usize),
    Status(usize),
    // Not calls: a byte of node 0's card; a card that is changed from outside; a state that only a peer leads to, with an open link.
    Card(usize, usize),
    Damage(usize, u8),
    Spend,
    Enter(State),
}

// What is answered, by the numbers of refusals and states, so that the tables pin these too.
#[derive(Clone, Copy, PartialEq, Eq, Debug)]
pub enum Told {
    Done,
    Number(u32),
    // The first byte of a block.
    Byte(u8),
    Collected(u32, Standing),
    Status(u8, bool),
    Refused(u8),
    // The block and the byte of damaged metadata.
    Meta(usize, usize),
}

impl From<()> for Told {
    fn from(_done: ()) -> Told {
        Told::Done
    }
}

impl From<u32> for Told {
    fn from(number: u32) -> Told {
        Told::Number(number)
    }
}

impl From<Collected> for Told {
    fn from(write: Collected) -> Told {
        Told::Collected(write.number, write.standing)
    }
}

impl From<Status> for Told {
    fn from(status: Status) -> Told {
        Told::Status(status.state.number(), status.role.is_primary())
    }
}

impl From<Refusal> for Told {
    fn from(refusal: Refusal) -> Told {
        match refusal {
            Refusal::Meta { block, byte, .. } => Told::Meta(block, byte),
            _ => Told::Refused(refusal.number()),
        }
    }
}

impl<T: Into<Told>> From<Result<T, Refusal>> for Told {
    fn from(answer: Result<T, Refusal>) -> Told {
        answer.map_or_else(Told::from, T::into)
    }
}

// A refused read leaves the buffer as it was.
fn read<A: Device, B: Device, L: Link>(
    pair: &Pair<A, B, L>,
    node: usize,
    block: usize,
    length: usize,
) -> Told {
    let mut buffer = [UNREAD; 512];
    let answer = pair.read(node, block, &mut buffer[..length.min(512)]);
    match answer {
        Err(refusal) if buffer.iter().all(|&b| b == UNREAD) => refusal.into(),
        _ => Told::Byte(buffer[0]),
    }
}

// A byte of a block of the device; UNREAD where there is none.
fn byte_of<D: Device>(device: &D, block: usize, byte: usize) -> Told {
    let mut bytes = [UNREAD; 512];
    let _ = device.read(block, &mut bytes);
    Told::Byte(bytes.get(byte).copied().unwrap_or(UNREAD))
}

fn put<D: Device>(device: &mut D, block: usize, bytes: &[u8]) -> Told {
    device.write(block, bytes).map_err(Refusal::from).into()
}

// A generation whose last identifier is given out: consistent, and never founded.
fn spent() -> [u8; 512] {
    let mut generation = Generation::fresh(4, 257);
    generation.serial = 999_999_999;
    generation.consistent = true;
    generation.to_block()
}

fn answer_to<A: Device, B: Device, L: Link>(pair: &mut Pair<A, B, L>, what: Ask) -> Told {
    match what {
        Ask::Power(node, supply) => pair.power(node, supply).into(),
        Ask::Kill(node) => pair.kill(node).into(),
        Ask::Start(node) => pair.start(node).into(),
        Ask::Found(node) => pair.found(node).into(),
        Ask::Promote(node) => pair.promote(node).into(),
        Ask::Demote(node) => pair.demote(node).into(),
        Ask::Cut => pair.cut().into(),
        Ask::Write(node, block, fill, length) => {
            pair.write(node, block, &[fill; 513][..length.min(513)])
                .into()
        }
        Ask::Read(node, block, length) => read(pair, node, block, length),
        Ask::Collect(node) => pair.collect(node).into(),
        Ask::Status(node) => pair.status(node).into(),
        Ask::Card(block, byte) => byte_of(&pair.zero.device, block, byte),
        Ask::Damage(block, fill) => put(&mut pair.zero.device, block, &[fill; 512]),
        Ask::Spend => put(&mut pair.zero.device, 0, &spent()),
        Ask::Enter(state) => {
            pair.zero.memory.state = state;
            pair.link.open();
            Told::Done
        }
    }
}

fn follow<A: Device, B: Device, L: Link>(
    rt: &impl Abort,
    pair: &mut Pair<A, B, L>,
    table: &[(Ask, Told)],
) {
    for &(what, answer) in table {
        assert_eq!(rt; answer_to(pair, what), answer);
    }
}

// Follows the tables, one after the other, on a pair of newly created cards.
fn on_new_cards<A: Device + Drop, B: Device + Drop, L: Link + Drop>(
    rt: &impl Abort,
    mut zero: A,
    mut one: B,
    link: L,
    tables: &[&[(Ask, Told)]],
) -> Result<(), Fail> {
    assert!(rt; create(&mut zero, SLOTS).is_ok());
    assert!(rt; create(&mut one, SLOTS).is_ok());
    let Ok(mut pair) = Pair::new(zero, one, link) else {
        return Err(Fail::new("no pair"));
    };
    for table in tables {
        follow(rt, &mut pair, table);
    }
    drop(pair.into_parts());
    Ok(())
}

// The same answers over flat cards with a slot link, and over image cards with a hop.
pub fn over_all_makes(
    rt: &impl Abort,
    heap: Global,
    tables: &[&[(Ask, Told)]],
) -> Result<(), Fail> {
    let mut first = vec![in heap; 0u8; COUNT * 512]?;
    let mut second = vec![in heap; 0u8; COUNT * 512]?;
    let (Ok(zero), Ok(one)) = (
        Flat::new(first.as_mut_slice()),
        Flat::new(second.as_mut_slice()),
    ) else {
        return Err(Fail::new("no flat cards"));
    };
    on_new_cards(rt, zero, one, SlotLink::new(), tables)?;
    let factory = vec![in heap; 0u8; COUNT * 512]?;
    let mut first = vec![in heap; 0u8; COUNT * 513]?;
    let mut second = vec![in heap; 0u8; COUNT * 513]?;
    let (Ok(zero), Ok(one)) = (
        Image::new(factory.as_slice(), first.as_mut_slice()),
        Image::new(factory.as_slice(), second.as_mut_slice()),
    ) else {
        return Err(Fail::new("no image cards"));
    };
    let Ok(hop) = Hop::new(SlotLink::new()) else {
        return Err(Fail::new("no hop"));
    };
    on_new_cards(rt, zero, one, hop, tables)
}
