// A frame, read: its letter, its length, its fields from the left, its bits.
ghost use Rattle.std.specs.Prelude.{◌≡◌, ℕ, List, [], length};
ghost use Rattle.message.specs.Frames.{report_limits, start_limits, data_limits, block_limits, written_limits, fields_only, with_block, bits_shape, shaped_answer, decode_answer};
ghost use Rattle.message.specs.Messages.{says, said_by, answered, row_said, block_said};
ghost use Rattle.message.specs.Rows.{length_answer};
ghost use Rattle.message.specs.Laws.{RoundTrip};

use crate::limits::{block_limits, data_limits, report_limits, start_limits, written_limits};
use crate::{BLOCK, FrameFault, Message};
use bitmap::Bitmap;
use compare::{Role, Side};
use row::{COLUMNS, Limit, get_row};

// A frame of another length than is asked is wrong at the end of the shorter of the two.
fn check_length(frame: &[u8], asked: usize) -> Result<(), FrameFault>
    ensures { result ≡ length_answer (length frame.now) asked }
{
    let held = frame.len();
    if held != asked {
        return Err(FrameFault {
            byte: held.min(asked),
        });
    }
    Ok(())
}

// The numbers of a frame that is its letter and its fields.
#[tactic(auto, using(crate::proofs::Decoding::length_fault, crate::proofs::Decoding::field_fault, crate::proofs::Decoding::row_fields))]
fn read_row<const N: usize>(frame: &[u8], limits: [Limit; N]) -> Result<[u64; N], FrameFault>
    ensures { (letter : ℕ) → row_said letter result ≡ shaped_answer letter (fields_only limits.entry) frame.now }
{
    check_length(frame, 1 + COLUMNS * N)?;
    Ok(get_row(frame, 1, &limits, false)?)
}

// The numbers of a frame with a block, or a bitmap, after its fields, and the bytes of that.
#[tactic(auto, using(crate::proofs::Decoding::length_fault, crate::proofs::Decoding::field_fault))]
fn read_block<const N: usize>(
    frame: &[u8],
    limits: [Limit; N],
) -> Result<([u64; N], &[u8]), FrameFault>
    ensures { (letter : ℕ) → block_said letter result ≡ shaped_answer letter (with_block limits.entry) frame.now }
{
    let from = 1 + COLUMNS * N;
    check_length(frame, from + BLOCK)?;
    let numbers = get_row(frame, 1, &limits, false)?;
    Ok((numbers, &frame[from..]))
}

fn report(frame: &[u8], blocks: usize) -> Result<Message<'_>, FrameFault>
    ensures { answered result ≡ shaped_answer 82 (fields_only (report_limits blocks)) frame.now }
{
    let [
        current,
        bitmap,
        recent,
        older,
        consistent,
        primary,
        role,
        bits,
        word,
    ] = read_row(frame, report_limits(blocks))?;
    // A flag is 0 or 1 by its limits, and no From makes a bool of a number.
    let side = Side {
        current,
        bitmap,
        recent,
        older,
        consistent: consistent == 1,
        primary: primary == 1,
        role: Role::from(role == 1),
        bits,
    };
    Ok(Message::Report { side, word })
}

fn start(frame: &[u8]) -> Result<Message<'_>, FrameFault>
    ensures { answered result ≡ shaped_answer 83 (fields_only start_limits) frame.now }
{
    let [current, recent, older] = read_row(frame, start_limits())?;
    Ok(Message::Start {
        current,
        recent,
        older,
    })
}

fn bits(frame: &[u8], blocks: usize) -> Result<Message<'_>, FrameFault>
    ensures { answered result ≡ shaped_answer 66 (bits_shape blocks) frame.now }
{
    let (_, bytes) = read_block(frame, [])?;
    // The bits begin behind the letter.
    Bitmap::from_bytes(bytes, blocks).map_err(|fault| FrameFault {
        byte: 1 + fault.byte,
    })?;
    Ok(Message::Bits { bytes })
}

fn data(frame: &[u8], blocks: usize) -> Result<Message<'_>, FrameFault>
    ensures { answered result ≡ shaped_answer 68 (with_block (data_limits blocks)) frame.now }
{
    let ([write, block], bytes) = read_block(frame, data_limits(blocks))?;
    Ok(Message::Data {
        write,
        block: block as usize,
        bytes,
    })
}

fn copy(frame: &[u8], blocks: usize) -> Result<Message<'_>, FrameFault>
    ensures { answered result ≡ shaped_answer 67 (with_block (block_limits blocks)) frame.now }
{
    let ([block], bytes) = read_block(frame, block_limits(blocks))?;
    Ok(Message::Copy {
        block: block as usize,
        bytes,
    })
}

fn written(frame: &[u8]) -> Result<Message<'_>, FrameFault>
    ensures { answered result ≡ shaped_answer 75 (fields_only written_limits) frame.now }
{
    let [write] = read_row(frame, written_limits())?;
    Ok(Message::Written { write })
}

fn landed(frame: &[u8], blocks: usize) -> Result<Message<'_>, FrameFault>
    ensures { answered result ≡ shaped_answer 76 (fields_only (block_limits blocks)) frame.now }
{
    let [block] = read_row(frame, block_limits(blocks))?;
    Ok(Message::Landed {
        block: block as usize,
    })
}

// A message that is its letter alone.
fn alone<'a>(frame: &'a [u8], message: Message<'a>) -> Result<Message<'a>, FrameFault>
    ensures { (letter : ℕ) → said_by message.entry ≡ says letter [] [] → answered result ≡ shaped_answer letter (fields_only []) frame.now }
{
    read_row(frame, [])?;
    Ok(message)
}

// A caller that takes one kind of message alone gets the reader of that kind: a copy's frame took 1.7 times as long without.
#[inline]
#[tactic(auto, using(crate::proofs::Decoding::by_shape, crate::proofs::Decoding::no_letter), unfolding(crate::specs::Frames::shape_of))]
pub fn decode(frame: &[u8], blocks: usize) -> Result<Message<'_>, FrameFault>
    ensures { answered result ≡ decode_answer blocks frame.now }
{
    let letter = *frame.first().ok_or(FrameFault { byte: 0 })?;
    match char::from(letter) {
        'R' => report(frame, blocks),
        'S' => start(frame),
        'B' => bits(frame, blocks),
        'D' => data(frame, blocks),
        'C' => copy(frame, blocks),
        'K' => written(frame),
        'L' => landed(frame, blocks),
        'A' => alone(frame, Message::Adopted),
        'F' => alone(frame, Message::Finish),
        'W' => alone(frame, Message::Whole),
        _ => Err(FrameFault { byte: 0 }),
    }
}

// Bytes are read as a message exactly if they are what `encode` writes for it.
pub fn decode_stands()
    ensures { (blocks : ℕ) (frame : List ℕ) → RoundTrip blocks frame }
{}
