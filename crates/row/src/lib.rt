// A row of fields: numbers of twelve columns each, side by side, each with limits of its own.
#![tactic(auto)]

ghost use Rattle.std.specs.Prelude.{◌≡◌, ℕ, ◌+◌, ◌*◌, false, ◌&&◌, [], length, zip, nat_le, nat_lt};
ghost use Rattle.std.specs.List.{list_all};
ghost use Rattle.field.specs.Fields.{put_answer};
ghost use Rattle.row.specs.Rows.{fits_row, put_row, takes, repeated, within, field_answer, row_from};

use field::{FieldFault, get_at, put_at};

pub mod record;

pub const COLUMNS: usize = 12;

// The numbers below it have a field of so many columns.
const ROOM: u64 = 1_000_000_000_000;

// The numbers that a field may hold.
#[derive(Clone, Copy, PartialEq, Eq, Debug)]
pub struct Limit {
    pub least: u64,
    pub most: u64,
}

impl Limit {
    // Whether a row that is read takes this number: one within the limits that has a field.
    fn takes(self, number: u64) -> bool
        ensures { result ≡ takes self number }
    {
        (self.least..=self.most).contains(&number) && number < ROOM
    }
}

// Whether `size` bytes have all the columns of so many fields from the byte `at` on. By a division: twelve times the fields may be
// too large a number, so `field` is not asked for them all as one.
fn has_room(size: usize, at: usize, fields: usize) -> bool
    ensures { result ≡ nat_le (at + 12 * fields) size }
{
    at <= size && fields <= (size - at) / COLUMNS
}

fn all_fit(numbers: &[u64]) -> bool
    ensures { result ≡ list_all (λ number. nat_lt number 1000000000000) numbers.now }
{
    numbers.iter().all(|number| *number < ROOM)
}

// Writes the numbers from the byte `at` on. A row that does not fit is refused before any of it is written.
pub fn put_row(bytes: &mut [u8], at: usize, numbers: &[u64]) -> Result<(), FieldFault>
    ensures answer { result ≡ put_answer (fits_row bytes.old at numbers.now) at }
    ensures after { bytes.new ≡ put_row bytes.old at numbers.now }
{
    if !has_room(bytes.len(), at, numbers.len()) || !all_fit(numbers) {
        return Err(FieldFault { at });
    }
    // Each field is a part of the bytes by its place: of chunks lent as `&mut` by a `zip`, the proof knows nothing after the loop.
    for (i, number) in numbers.iter().enumerate() {
        put_at(bytes, at + COLUMNS * i, COLUMNS, *number)?;
    }
    Ok(())
}

// Whether there is a number for each limit, which that takes.
pub fn all_within(numbers: &[u64], limits: &[Limit]) -> bool
    ensures { result ≡ within false [] limits.now numbers.now }
{
    numbers.len() == limits.len() && all_taken(numbers, limits)
}

// Whether each limit takes the number in its place.
fn all_taken(numbers: &[u64], limits: &[Limit]) -> bool
    ensures { result ≡ list_all (λ (p : ℕ × Limit). takes p.1 p.0) (zip numbers.now limits.now) }
{
    numbers
        .iter()
        .zip(limits)
        .all(|(number, limit)| limit.takes(*number))
}

// Whether a number that is not 0 stands among those before it.
fn is_repeated(number: u64, before: &[u64]) -> bool
    ensures { result ≡ repeated before.now number }
{
    number != 0 && before.contains(&number)
}

fn get_field(
    bytes: &[u8],
    at: usize,
    limit: Limit,
    once: bool,
    before: &[u64],
) -> Result<u64, FieldFault>
    ensures { result ≡ field_answer bytes.now at limit once before.now }
{
    let number = get_at(bytes, at, COLUMNS, limit.most)?;
    if number < limit.least || (once && is_repeated(number, before)) {
        return Err(FieldFault { at });
    }
    Ok(number)
}

// Reads a number for each limit, from the byte `from` on. With `once`, no number but 0 stands in two fields.
pub fn get_row<const N: usize>(
    bytes: &[u8],
    from: usize,
    limits: &[Limit; N],
    once: bool,
) -> Result<[u64; N], FieldFault>
    ensures { result ≡ row_from bytes.now once «from» [] limits.now }
{
    let mut numbers = [0; N];
    // The place is needed, and not the limit alone: a number may not stand among those before it.
    for (i, limit) in limits.iter().enumerate() {
        let before = &numbers[..];
        numbers[i] = get_field(bytes, from + COLUMNS * i, *limit, once, &before[..i])?;
    }
    Ok(numbers)
}
