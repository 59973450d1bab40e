// Power fails at every block write of every call. The card then holds what was written before, and nothing else.
use crate::asking::{Ask, Told, over_all_makes};
use std::test::*;

const MAINS: u32 = 1_000_001;

// Byte 11 of block 0 ends the current generation, byte 83 the primary field, byte 71 the consistent one.
const GENERATION: [(Ask, Told); 33] = [
    (Ask::Start(0), Told::Done),
    (Ask::Power(0, 0), Told::Done),
    (Ask::Found(0), Told::Refused(23)),
    (Ask::Status(0), Told::Status(0, false)),
    (Ask::Card(0, 11), Told::Byte(b'0')),
    (Ask::Start(0), Told::Done),
    (Ask::Power(0, 1), Told::Done),
    (Ask::Found(0), Told::Done),
    (Ask::Card(0, 11), Told::Byte(b'2')),
    (Ask::Card(0, 71), Told::Byte(b'1')),
    (Ask::Promote(0), Told::Refused(23)),
    (Ask::Status(0), Told::Status(0, false)),
    (Ask::Card(0, 83), Told::Byte(b'0')),
    (Ask::Start(0), Told::Done),
    (Ask::Power(0, MAINS), Told::Done),
    (Ask::Promote(0), Told::Done),
    (Ask::Card(0, 11), Told::Byte(b'4')),
    (Ask::Card(0, 83), Told::Byte(b'1')),
    (Ask::Write(0, 9, 1, 512), Told::Number(1)),
    (Ask::Power(0, 0), Told::Done),
    (Ask::Demote(0), Told::Refused(23)),
    (Ask::Card(2, 1), Told::Byte(0)),
    // A card on which a Primary was at work: the start writes the bitmap, with the whole extent that was active.
    (Ask::Start(0), Told::Refused(23)),
    (Ask::Status(0), Told::Status(0, false)),
    (Ask::Power(0, 3), Told::Done),
    (Ask::Start(0), Told::Done),
    (Ask::Card(2, 7), Told::Byte(255)),
    (Ask::Card(2, 8), Told::Byte(0)),
    (Ask::Promote(0), Told::Done),
    (Ask::Demote(0), Told::Refused(23)),
    (Ask::Card(2, 1), Told::Byte(255)),
    (Ask::Card(0, 83), Told::Byte(b'1')),
    (Ask::Status(0), Told::Status(0, false)),
];

// Bytes 11, 23, 35 and 47 of block 1 end the four slots; data block b is device block b + 3.
const VACANT: [(Ask, Told); 27] = [
    (Ask::Start(0), Told::Done),
    (Ask::Found(0), Told::Done),
    (Ask::Promote(0), Told::Done),
    (Ask::Power(0, 0), Told::Done),
    (Ask::Write(0, 0, 1, 512), Told::Refused(23)),
    (Ask::Status(0), Told::Status(0, false)),
    (Ask::Card(1, 11), Told::Byte(b'0')),
    (Ask::Card(3, 0), Told::Byte(0)),
    (Ask::Power(0, MAINS), Told::Done),
    (Ask::Start(0), Told::Done),
    (Ask::Promote(0), Told::Done),
    (Ask::Power(0, 1), Told::Done),
    (Ask::Write(0, 64, 1, 512), Told::Refused(23)),
    (Ask::Card(1, 11), Told::Byte(b'2')),
    (Ask::Card(67, 0), Told::Byte(0)),
    (Ask::Power(0, MAINS), Told::Done),
    (Ask::Start(0), Told::Done),
    (Ask::Promote(0), Told::Done),
    // The extent is active already: one block write.
    (Ask::Power(0, 1), Told::Done),
    (Ask::Write(0, 65, 2, 512), Told::Number(1)),
    (Ask::Write(0, 66, 3, 512), Told::Refused(23)),
    (Ask::Card(68, 0), Told::Byte(2)),
    (Ask::Card(69, 0), Told::Byte(0)),
    (Ask::Card(1, 11), Told::Byte(b'2')),
    (Ask::Card(1, 23), Told::Byte(b'0')),
    (Ask::Status(0), Told::Status(0, false)),
    (Ask::Collect(0), Told::Refused(8)),
];

// A node whose four slots hold the extents 0 to 3; extent 0 is used once more, so extent 1 is the least recent.
const FILLED: [(Ask, Told); 8] = [
    (Ask::Start(0), Told::Done),
    (Ask::Found(0), Told::Done),
    (Ask::Promote(0), Told::Done),
    (Ask::Write(0, 0, 1, 512), Told::Number(1)),
    (Ask::Write(0, 64, 2, 512), Told::Number(2)),
    (Ask::Write(0, 128, 3, 512), Told::Number(3)),
    (Ask::Write(0, 192, 4, 512), Told::Number(4)),
    (Ask::Write(0, 1, 5, 512), Told::Number(5)),
];

// What is on the card when the write that gives up a slot has made none, one, two or all of its three block writes.
const GIVEN_UP: [[(Ask, Told); 8]; 4] = [
    [
        (Ask::Power(0, 0), Told::Done),
        (Ask::Write(0, 256, 6, 512), Told::Refused(23)),
        (Ask::Card(2, 0), Told::Byte(0)),
        (Ask::Card(2, 8), Told::Byte(0)),
        (Ask::Card(1, 23), Told::Byte(b'2')),
        (Ask::Card(259, 0), Told::Byte(0)),
        (Ask::Status(0), Told::Status(0, false)),
        (Ask::Card(1, 11), Told::Byte(b'1')),
    ],
    [
        (Ask::Power(0, 1), Told::Done),
        (Ask::Write(0, 256, 6, 512), Told::Refused(23)),
        (Ask::Card(2, 0), Told::Byte(3)),
        (Ask::Card(2, 8), Told::Byte(1)),
        (Ask::Card(1, 23), Told::Byte(b'2')),
        (Ask::Card(259, 0), Told::Byte(0)),
        (Ask::Status(0), Told::Status(0, false)),
        (Ask::Card(1, 11), Told::Byte(b'1')),
    ],
    [
        (Ask::Power(0, 2), Told::Done),
        (Ask::Write(0, 256, 6, 512), Told::Refused(23)),
        (Ask::Card(2, 0), Told::Byte(3)),
        (Ask::Card(2, 8), Told::Byte(1)),
        (Ask::Card(1, 23), Told::Byte(b'5')),
        (Ask::Card(259, 0), Told::Byte(0)),
        (Ask::Status(0), Told::Status(0, false)),
        (Ask::Card(1, 11), Told::Byte(b'1')),
    ],
    [
        (Ask::Power(0, 3), Told::Done),
        (Ask::Write(0, 256, 6, 512), Told::Number(6)),
        (Ask::Card(2, 0), Told::Byte(3)),
        (Ask::Card(2, 8), Told::Byte(1)),
        (Ask::Card(1, 23), Told::Byte(b'5')),
        (Ask::Card(259, 0), Told::Byte(6)),
        (Ask::Card(2, 32), Told::Byte(0)),
        (Ask::Card(1, 11), Told::Byte(b'1')),
    ],
];

#[test]
fn at_the_writes_of_a_generation(rt: HostRuntime) -> Result<(), Fail> {
    over_all_makes(&rt, rt.alloc(), &[&GENERATION])
}

#[test]
fn at_a_write_into_a_vacant_slot(rt: HostRuntime) -> Result<(), Fail> {
    over_all_makes(&rt, rt.alloc(), &[&VACANT])
}

#[test]
fn at_a_write_that_gives_up_a_slot(rt: HostRuntime) -> Result<(), Fail> {
    for writes in GIVEN_UP.iter() {
        over_all_makes(&rt, rt.alloc(), &[&FILLED, writes])?;
    }
    Ok(())
}
