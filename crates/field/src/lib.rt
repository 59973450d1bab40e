// Decimal numbers in a fixed number of columns: right-justified, spaces before, no leading zeros, nought as one 0.
#![tactic(auto)]

ghost use Rattle.std.specs.Prelude.{◌≡◌, ◌+◌, length, nat_le, ◌==◌};
ghost use Rattle.std.specs.List.{list_all};
ghost use Rattle.field.specs.Fields.{fits, put_answer, put_into, fits_at, put_at, read_answer, read_at, RoundTrip};

// The field that starts at the byte `at` holds no number that may stand there, or cannot take the number.
#[derive(Clone, Copy, PartialEq, Eq, Debug)]
pub struct FieldFault {
    pub at: usize,
}

const SPACE: u8 = b' ';

// `put` and `get` work on the field alone, which starts at its first byte.
const UNFIT: FieldFault = FieldFault { at: 0 };

// Writes a number into all of `out`. One that is too large is refused before any column is written.
pub fn put(out: &mut [u8], number: u64) -> Result<(), FieldFault>
    ensures answer { result ≡ put_answer (fits (length out.old) number) 0 }
    ensures after { out.new ≡ put_into out.old number }
{
    let Some((last, before)) = out.split_last_mut() else {
        return Err(UNFIT);
    };
    if number < 10 {
        before.fill(SPACE);
    } else {
        put(before, number / 10)?;
    }
    *last = b'0' + (number % 10) as u8;
    Ok(())
}

// Whether a block of `size` bytes has all the columns of the field that starts at the byte `at`.
fn has_columns(size: usize, at: usize, columns: usize) -> bool
    ensures { result ≡ nat_le (at + columns) size }
{
    at <= size && columns <= size - at
}

// Writes a number into the columns from the byte `at` on, and changes no other byte.
pub fn put_at(block: &mut [u8], at: usize, columns: usize, number: u64) -> Result<(), FieldFault>
    ensures answer { result ≡ put_answer (fits_at block.old at columns number) at }
    ensures after { block.new ≡ put_at block.old at columns number }
{
    if !has_columns(block.len(), at, columns) {
        return Err(FieldFault { at });
    }
    put(&mut block[at..at + columns], number).map_err(|_| FieldFault { at })
}

fn is_blank(columns: &[u8]) -> bool
    ensures { result ≡ list_all (λ x. x == 32) columns.now }
{
    columns.iter().all(|column| *column == SPACE)
}

// Reads the number, at most `most`, that all of `bytes` is the field of.
pub fn get(bytes: &[u8], most: u64) -> Result<u64, FieldFault>
    ensures answer { result ≡ read_answer most bytes.now 0 }
    ensures law { RoundTrip most bytes.now result }
{
    let Some((last, before)) = bytes.split_last() else {
        return Err(UNFIT);
    };
    if !last.is_ascii_digit() {
        return Err(UNFIT);
    }
    let digit = u64::from(*last - b'0');
    if digit > most {
        return Err(UNFIT);
    }
    if is_blank(before) {
        return Ok(digit);
    }
    // A digit before it, which is not 0, takes a limit that is not 0. So no more than twenty calls are ever nested.
    let limit = (most - digit) / 10;
    if limit == 0 {
        return Err(UNFIT);
    }
    match get(before, limit)? {
        // No leading zeros.
        0 => Err(UNFIT),
        number => Ok(number * 10 + digit),
    }
}

// Reads the field in the columns from the byte `at` on.
pub fn get_at(block: &[u8], at: usize, columns: usize, most: u64) -> Result<u64, FieldFault>
    ensures { result ≡ read_at block.now at columns most }
{
    if !has_columns(block.len(), at, columns) {
        return Err(FieldFault { at });
    }
    get(&block[at..at + columns], most).map_err(|_| FieldFault { at })
}
