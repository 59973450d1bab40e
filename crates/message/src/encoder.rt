// A message, written as a frame at the front of a buffer; what stands behind it stays.
ghost use Rattle.std.specs.Prelude.{◌≡◌, [], length, Some};
ghost use Rattle.message.specs.Frames.{plain, fields_only, with_block, bits_shape, write_answer, write_into, encode_answer, encode_into};
ghost use Rattle.message.specs.Messages.{report_numbers, says, said_by};

use crate::limits::{block_limits, data_limits, report_limits, start_limits, written_limits};
use crate::{BLOCK, Message};
use bitmap::Bitmap;
use compare::Side;
use row::{COLUMNS, Limit, all_within, put_row};

// Refuses, before it writes a byte, numbers past their limits and a buffer that is too short.
// Limits and numbers are two arrays, since a row is read by its limits alone and written by its numbers alone.
fn write<const N: usize>(
    out: &mut [u8],
    letter: u8,
    limits: [Limit; N],
    numbers: [u64; N],
    bytes: &[u8],
) -> Option<usize>
    ensures answer { result ≡ write_answer (Some (plain limits.entry (length bytes.now))) (says letter numbers.entry bytes.now) out.old }
    ensures after { out.new ≡ write_into (Some (plain limits.entry (length bytes.now))) (says letter numbers.entry bytes.now) out.old }
{
    let from = 1 + COLUMNS * N;
    let end = from + bytes.len();
    if out.len() < end || !all_within(&numbers, &limits) {
        return None;
    }
    // Numbers within their limits fit, so none is refused.
    let _ = put_row(out, 1, &numbers);
    out[0] = letter;
    out[from..end].copy_from_slice(bytes);
    Some(end)
}

// A frame that is its letter and its fields.
fn write_row<const N: usize>(
    out: &mut [u8],
    letter: u8,
    limits: [Limit; N],
    numbers: [u64; N],
) -> Option<usize>
    ensures answer { result ≡ write_answer (Some (fields_only limits.entry)) (says letter numbers.entry []) out.old }
    ensures after { out.new ≡ write_into (Some (fields_only limits.entry)) (says letter numbers.entry []) out.old }
{
    write(out, letter, limits, numbers, &[])
}

// A frame with a block, or a bitmap, after its fields.
fn write_block<const N: usize>(
    out: &mut [u8],
    letter: u8,
    limits: [Limit; N],
    numbers: [u64; N],
    bytes: &[u8],
) -> Option<usize>
    ensures answer { result ≡ write_answer (Some (with_block limits.entry)) (says letter numbers.entry bytes.now) out.old }
    ensures after { out.new ≡ write_into (Some (with_block limits.entry)) (says letter numbers.entry bytes.now) out.old }
{
    if bytes.len() != BLOCK {
        return None;
    }
    write(out, letter, limits, numbers, bytes)
}

fn write_bits(out: &mut [u8], bytes: &[u8], blocks: usize) -> Option<usize>
    ensures answer { result ≡ write_answer (Some (bits_shape blocks)) (says 66 [] bytes.now) out.old }
    ensures after { out.new ≡ write_into (Some (bits_shape blocks)) (says 66 [] bytes.now) out.old }
{
    Bitmap::from_bytes(bytes, blocks).ok()?;
    write_block(out, b'B', [], [], bytes)
}

fn report_numbers(side: Side, word: u64) -> [u64; 9]
    ensures { result ≡ report_numbers side word }
{
    [
        side.current,
        side.bitmap,
        side.recent,
        side.older,
        u64::from(side.consistent),
        u64::from(side.primary),
        u64::from(side.role.is_primary()),
        side.bits,
        word,
    ]
}

// The length of the frame, or None, with nothing written, where the buffer is too short for it or a peer with so many blocks
// would refuse it.
#[tactic(auto, unfolding(crate::specs::Frames::shape_of))]
pub fn encode(message: &Message<'_>, blocks: usize, out: &mut [u8]) -> Option<usize>
    ensures answer { result ≡ encode_answer blocks (said_by message.now) out.old }
    ensures after { out.new ≡ encode_into blocks (said_by message.now) out.old }
{
    match *message {
        Message::Report { side, word } => {
            write_row(out, b'R', report_limits(blocks), report_numbers(side, word))
        }
        Message::Start {
            current,
            recent,
            older,
        } => write_row(out, b'S', start_limits(), [current, recent, older]),
        Message::Bits { bytes } => write_bits(out, bytes, blocks),
        Message::Data {
            write,
            block,
            bytes,
        } => write_block(out, b'D', data_limits(blocks), [write, block as u64], bytes),
        Message::Copy { block, bytes } => {
            write_block(out, b'C', block_limits(blocks), [block as u64], bytes)
        }
        Message::Written { write } => write_row(out, b'K', written_limits(), [write]),
        Message::Landed { block } => write_row(out, b'L', block_limits(blocks), [block as u64]),
        Message::Adopted => write_row(out, b'A', [], []),
        Message::Finish => write_row(out, b'F', [], []),
        Message::Whole => write_row(out, b'W', [], []),
    }
}
