// What is done straight on one card.
use crate::command::{CardAct, Damage};
use crate::link_tools::mark;
use crate::script::{Answer, Stop};
use bitmap::Bitmap;
use card::activity::Activity;
use card::generation::Generation;
use card::reading::{read_block, read_card};
use device::{Device, DeviceFault};
use refusal::Refusal;
use std::alloc::AllocError;
use std::fs;
use std::rt::Files;

pub fn act_on<D: Device>(
    rt: &HostRuntime,
    device: &mut D,
    node: usize,
    act: CardAct,
) -> Result<Answer, Stop> {
    match act {
        CardAct::Power(supply) => power(device, supply)?,
        CardAct::Write { block, text } => write(device, block, text.as_bytes())?,
        CardAct::Read(block) => {
            let block = read_block(device, block)?;
            return Ok(Answer::Value(text::shown(rt.alloc(), &block)?));
        }
        CardAct::Save(file) => save(rt, device, file)?,
        // As a start reads them.
        CardAct::Check => {
            let _ = read_card(device, node)?;
        }
    }
    Ok(Answer::Done)
}

fn power<D: Device>(device: &mut D, supply: u64) -> Result<(), Refusal> {
    let supply = u32::try_from(supply).map_err(|_| Refusal::Measure)?;
    device.set_supply(supply)?;
    Ok(())
}

// A text longer than a block goes to the device as it is, which refuses it in its order.
fn write<D: Device>(device: &mut D, block: usize, words: &[u8]) -> Result<(), DeviceFault> {
    let mut buffer = [0u8; 512];
    if text::fill(&mut buffer, words) {
        return device.write(block, &buffer);
    }
    device.write(block, words)
}

// A block with another value for one of its bytes.
pub fn damaged<D: Device>(device: &D, damage: Damage) -> Result<[u8; 512], Refusal> {
    let mut block = read_block(device, damage.block)?;
    let value = u8::try_from(damage.value).map_err(|_| Refusal::Measure)?;
    *block.get_mut(damage.byte).ok_or(Refusal::Measure)? = value;
    Ok(block)
}

// Whole blocks onto a card, from one on.
pub fn put<D: Device>(device: &mut D, first: usize, bytes: &[u8]) -> Result<(), DeviceFault> {
    for (block, bytes) in (first..).zip(bytes.chunks_exact(512)) {
        device.write(block, bytes)?;
    }
    Ok(())
}

fn save<D: Device>(rt: &HostRuntime, device: &D, file: &str) -> Result<(), Stop> {
    let heap = rt.alloc();
    let mut bytes = Vec::new(heap);
    for block in 0..device.count() {
        bytes.extend_from_slice(&read_block(device, block)?)?;
    }
    fs::write(rt, file, bytes.as_slice()).try_map_err(|error| -> Result<Stop, Stop> {
        Ok(Stop::Trouble(format!(in heap; "cannot write {file}: {error}")?))
    })
}

// A file's bytes, which are a card of so many blocks.
pub fn card_in(rt: &HostRuntime, file: &str, blocks: usize) -> Result<Vec<u8>, Stop> {
    let heap = rt.alloc();
    let bytes = fs::read(rt, file).try_map_err(|error| -> Result<Stop, Stop> {
        Ok(Stop::Trouble(format!(in heap; "cannot read {file}: {error}")?))
    })?;
    let length = bytes.len();
    if blocks.checked_mul(512) == Some(length) {
        return Ok(bytes);
    }
    Err(Stop::Trouble(format!(in heap;
        "{file} has {length} bytes, and the card has {blocks} blocks of 512"
    )?))
}

// The records of a card, or what is wrong with them, and its data blocks that are not all zero.
pub fn list<D: Device>(device: &D, node: usize, lines: &mut String) -> Result<(), Stop> {
    let count = device.count();
    writeln!(lines, "  card {node}: {count} blocks")?;
    match read_card(device, node) {
        Ok(card) => {
            list_generation(&card.generation, lines)?;
            list_activity(&card.activity, lines)?;
            list_bitmap(&card.bitmap, card.generation.blocks as usize, lines)?;
        }
        Err(refusal) => writeln!(lines, "    metadata: {refusal}")?,
    }
    for block in 3..count {
        let words = text::shown(*lines.allocator(), &read_block(device, block)?)?;
        if !words.is_empty() {
            writeln!(lines, "    block {block}: {words}")?;
        }
    }
    Ok(())
}

// A flag as a person reads it: the Display of a bool says true and false.
fn yes_no(flag: bool) -> &'static str {
    if flag { "yes" } else { "no" }
}

fn list_generation(record: &Generation, lines: &mut String) -> Result<(), AllocError> {
    let (current, bitmap) = (record.current, record.bitmap);
    let (recent, older) = (record.history_1, record.history_2);
    writeln!(
        lines,
        "    generation: current {current}, bitmap {bitmap}, history {recent} and {older}"
    )?;
    let (serial, slots, blocks) = (record.serial, record.slots, record.blocks);
    let consistent = yes_no(record.consistent);
    let primary = yes_no(record.primary);
    writeln!(
        lines,
        "    serial {serial}, consistent {consistent}, primary {primary}, {slots} slots, {blocks} data blocks"
    )
}

fn list_activity(record: &Activity, lines: &mut String) -> Result<(), AllocError> {
    lines.push_str("    active extents:")?;
    for extent in (0..16).filter_map(|slot| record.extent_in(slot)) {
        write!(lines, " {extent}")?;
    }
    lines.push('\n')
}

// A mark for each data block whose bit is set and a dot for each other, 64 to a line; lines of dots alone are left out.
fn list_bitmap(map: &Bitmap, blocks: usize, lines: &mut String) -> Result<(), AllocError> {
    let marked = map.count();
    writeln!(lines, "    bitmap: {marked} of {blocks} bits set")?;
    for first in (0..blocks).step_by(64) {
        let end = blocks.min(first.saturating_add(64));
        if map.next_set(first).is_some_and(|set| set < end) {
            write!(lines, "      from {first}: ")?;
            lines.extend((first..end).map(|block| mark(map.test(block))))?;
            lines.push('\n')?;
        }
    }
    Ok(())
}
