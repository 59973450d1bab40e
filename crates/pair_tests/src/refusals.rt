// Each call meets each of its refusals. Where two would fit, the table shows which comes first.
use crate::asking::{Ask, Told, over_all_makes};
use protocol::{Standing, State};
use std::test::*;

// A node that is down.
const DOWN: [(Ask, Told); 20] = [
    (Ask::Status(2), Told::Refused(1)),
    (Ask::Power(2, 1_000_002), Told::Refused(1)),
    (Ask::Power(0, 1_000_002), Told::Refused(2)),
    (Ask::Kill(2), Told::Refused(1)),
    (Ask::Kill(0), Told::Refused(8)),
    (Ask::Start(2), Told::Refused(1)),
    (Ask::Found(2), Told::Refused(1)),
    (Ask::Found(0), Told::Refused(8)),
    (Ask::Promote(0), Told::Refused(8)),
    (Ask::Demote(0), Told::Refused(8)),
    (Ask::Cut, Told::Refused(18)),
    (Ask::Write(2, 257, 7, 511), Told::Refused(1)),
    (Ask::Write(0, 257, 7, 511), Told::Refused(2)),
    (Ask::Write(0, 257, 7, 512), Told::Refused(3)),
    (Ask::Write(0, 256, 7, 512), Told::Refused(8)),
    (Ask::Read(0, 257, 511), Told::Refused(2)),
    (Ask::Read(0, 257, 512), Told::Refused(3)),
    (Ask::Read(0, 256, 512), Told::Refused(8)),
    (Ask::Collect(0), Told::Refused(8)),
    (Ask::Status(0), Told::Status(0, false)),
];

// A node that is up, with no peer.
const APART: [(Ask, Told); 30] = [
    (Ask::Start(0), Told::Done),
    (Ask::Start(0), Told::Refused(9)),
    (Ask::Status(0), Told::Status(1, false)),
    (Ask::Status(1), Told::Status(0, false)),
    (Ask::Promote(0), Told::Refused(12)),
    (Ask::Demote(0), Told::Refused(11)),
    (Ask::Write(0, 0, 7, 512), Told::Refused(11)),
    (Ask::Read(0, 0, 512), Told::Refused(11)),
    (Ask::Collect(0), Told::Refused(18)),
    (Ask::Found(0), Told::Done),
    (Ask::Found(0), Told::Refused(21)),
    (Ask::Promote(0), Told::Done),
    (Ask::Promote(0), Told::Refused(11)),
    (Ask::Status(0), Told::Status(1, true)),
    (Ask::Write(0, 0, 1, 512), Told::Number(1)),
    (Ask::Write(0, 0, 2, 512), Told::Number(2)),
    (Ask::Write(0, 1, 3, 512), Told::Number(3)),
    (Ask::Write(0, 64, 4, 512), Told::Number(4)),
    (Ask::Write(0, 65, 5, 512), Told::Number(5)),
    (Ask::Write(0, 256, 6, 512), Told::Number(6)),
    (Ask::Write(0, 2, 7, 512), Told::Number(7)),
    (Ask::Write(0, 3, 8, 512), Told::Number(8)),
    (Ask::Write(0, 4, 9, 512), Told::Refused(16)),
    (Ask::Read(0, 0, 512), Told::Byte(2)),
    (Ask::Read(0, 256, 512), Told::Byte(6)),
    (Ask::Collect(0), Told::Collected(1, Standing::Alone)),
    (Ask::Write(0, 4, 9, 512), Told::Number(9)),
    (Ask::Demote(0), Told::Done),
    (Ask::Kill(0), Told::Done),
    (Ask::Status(0), Told::Status(0, false)),
];

// Identifiers that are spent, and damaged metadata.
const CARDS: [(Ask, Told); 13] = [
    (Ask::Spend, Told::Done),
    (Ask::Start(0), Told::Done),
    (Ask::Found(0), Told::Refused(20)),
    (Ask::Promote(0), Told::Refused(20)),
    (Ask::Kill(0), Told::Done),
    (Ask::Damage(2, 1), Told::Done),
    (Ask::Start(0), Told::Meta(2, 33)),
    (Ask::Damage(1, b' '), Told::Done),
    (Ask::Start(0), Told::Meta(1, 0)),
    (Ask::Damage(0, b'0'), Told::Done),
    (Ask::Power(0, 0), Told::Done),
    (Ask::Start(0), Told::Meta(0, 0)),
    (Ask::Status(0), Told::Status(0, false)),
];

// States that only a peer leads to.
const CONNECTED: [(Ask, Told); 34] = [
    (Ask::Start(0), Told::Done),
    (Ask::Enter(State::Comparing), Told::Done),
    (Ask::Found(0), Told::Refused(10)),
    (Ask::Promote(0), Told::Refused(10)),
    (Ask::Cut, Told::Done),
    (Ask::Cut, Told::Refused(18)),
    (Ask::Found(0), Told::Done),
    (Ask::Promote(0), Told::Done),
    (Ask::Enter(State::AwaitBits), Told::Done),
    (Ask::Write(0, 0, 1, 512), Told::Refused(13)),
    (Ask::Demote(0), Told::Refused(13)),
    (Ask::Found(0), Told::Refused(10)),
    (Ask::Enter(State::Joined), Told::Done),
    (Ask::Write(0, 0, 1, 512), Told::Number(1)),
    (Ask::Collect(0), Told::Refused(19)),
    (Ask::Demote(0), Told::Refused(13)),
    (Ask::Write(0, 64, 2, 512), Told::Number(2)),
    (Ask::Write(0, 128, 3, 512), Told::Number(3)),
    (Ask::Write(0, 192, 4, 512), Told::Number(4)),
    (Ask::Write(0, 256, 5, 512), Told::Refused(17)),
    (Ask::Write(0, 1, 6, 512), Told::Number(5)),
    (Ask::Cut, Told::Done),
    (Ask::Status(0), Told::Status(1, true)),
    (Ask::Collect(0), Told::Collected(1, Standing::Alone)),
    (Ask::Write(0, 256, 7, 512), Told::Number(6)),
    // Bits 0 and 1; then those of the four other extents' first blocks are in other bytes.
    (Ask::Demote(0), Told::Done),
    (Ask::Card(2, 0), Told::Byte(3)),
    (Ask::Card(2, 8), Told::Byte(1)),
    (Ask::Card(2, 16), Told::Byte(1)),
    (Ask::Card(2, 24), Told::Byte(1)),
    (Ask::Card(2, 32), Told::Byte(1)),
    (Ask::Card(2, 1), Told::Byte(0)),
    (Ask::Kill(0), Told::Done),
    (Ask::Kill(0), Told::Refused(8)),
];

#[test]
fn a_node_that_is_down(rt: HostRuntime) -> Result<(), Fail> {
    over_all_makes(&rt, rt.alloc(), &[&DOWN])
}

#[test]
fn a_node_with_no_peer(rt: HostRuntime) -> Result<(), Fail> {
    over_all_makes(&rt, rt.alloc(), &[&APART])
}

#[test]
fn spent_identifiers_and_damaged_cards(rt: HostRuntime) -> Result<(), Fail> {
    over_all_makes(&rt, rt.alloc(), &[&CARDS])
}

#[test]
fn states_that_a_peer_leads_to(rt: HostRuntime) -> Result<(), Fail> {
    over_all_makes(&rt, rt.alloc(), &[&CONNECTED])
}
