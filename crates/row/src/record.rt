// A record: a row that has a block of 512 bytes to itself, with spaces after it.
ghost use Rattle.std.specs.Prelude.{◌≡◌, ◌==◌, not, drop, position};
ghost use Rattle.row.specs.Records.{spaces_from, written_as, record_answer, RoundTrip};

use crate::{COLUMNS, Limit, get_row, put_row};
use field::FieldFault;

const BLOCK: usize = 512;

const SPACE: u8 = b' ';

// The block of a record. Of numbers that do not fit, none is written.
pub fn to_block(numbers: &[u64]) -> [u8; 512]
    ensures { result ≡ written_as numbers.now }
{
    let mut block = [0u8; 512];
    block.fill(SPACE);
    let _ = put_row(&mut block, 0, numbers);
    block
}

// Where the first byte stands, from the byte `from` on, that is no space.
fn first_other(block: &[u8], from: usize) -> Option<usize>
    ensures { result ≡ position (λ byte. not (byte == 32)) (drop «from» block.now) }
{
    block.iter().skip(from).position(|byte| *byte != SPACE)
}

fn only_spaces(block: &[u8], from: usize) -> Result<(), FieldFault>
    ensures { result ≡ spaces_from «from» (drop «from» block.now) }
{
    if let Some(i) = first_other(block, from) {
        return Err(FieldFault { at: from + i });
    }
    Ok(())
}

// Reads a record as `get_row` reads its row. A block of another length is wrong at the end of the shorter of the two.
pub fn from_block<const N: usize>(
    block: &[u8],
    limits: &[Limit; N],
    once: bool,
) -> Result<[u64; N], FieldFault>
    ensures answer { result ≡ record_answer block.now limits.now once }
    ensures law { RoundTrip block.now limits.now once result }
{
    let held = block.len();
    if held != BLOCK {
        return Err(FieldFault {
            at: held.min(BLOCK),
        });
    }
    let numbers = get_row(block, 0, limits, once)?;
    only_spaces(block, COLUMNS * N)?;
    Ok(numbers)
}
