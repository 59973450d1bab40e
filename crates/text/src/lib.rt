// Numbers and blocks as a person writes and reads them.
#![tactic(auto)]

ghost use Rattle.std.specs.Prelude.{◌≡◌, ◌%◌, ◌++◌, length, IfOk, string_bytes, OnOk, nat_le};
ghost use Rattle.text.specs.Text.{number_of, trimmed_of, filled, hex_digit, plain, spelled, spelled_all, shown_of};

use std::alloc::{AllocError, Global};

// A decimal number; one that passes 64 bits stands for the largest, which every call refuses.
pub fn number(word: &str) -> Option<u64>
    ensures { result ≡ number_of word.now }
{
    if word.is_empty() {
        return None;
    }
    let mut value: u64 = 0;
    for b in word.as_bytes() {
        if !b.is_ascii_digit() {
            return None;
        }
        value = value
            .saturating_mul(10)
            .saturating_add(u64::from(*b - b'0'));
    }
    Some(value)
}

// The bytes up to the trailing zeros.
#[tactic(auto, using(crate::proofs::Prefixes::trim_goes, crate::proofs::Prefixes::trim_stays))]
pub fn trimmed(bytes: &[u8]) -> &[u8]
    ensures { result.now ≡ trimmed_of bytes.now }
{
    let mut kept = bytes;
    while let [before @ .., 0] = kept {
        kept = before;
    }
    kept
}

// The text and then zeros into the block; false, and nothing written, where it is longer than the block.
// A bool, as `insert` of a set has it: there is no value beside it, and a caller takes one of two ways by it.
pub fn fill(block: &mut [u8], text: &[u8]) -> bool
    ensures answer { result ≡ nat_le (length text.now) (length block.old) }
    ensures after { block.new ≡ filled block.old text.now }
{
    let Some((front, rest)) = block.split_at_mut_checked(text.len()) else {
        return false;
    };
    front.copy_from_slice(text);
    rest.fill(0);
    true
}

fn prints(b: u8) -> bool
    ensures { result ≡ plain b }
{
    matches!(b, b' '..=b'~') && b != b'\\'
}

fn hex_digit(digit: u8) -> u8
    ensures { result ≡ hex_digit (digit % 16) }
{
    let d = digit % 16;
    if d < 10 { b'0' + d } else { b'A' - 10 + d }
}

// A byte that prints as itself; any other, and a backslash, as \xHH.
// Its digits are pushed one by one: by `write!` with `{b:02X}`, a block that does not print took four times as long to spell.
fn spell(text: &mut String, b: u8) -> Result<(), AllocError>
    ensures { OnOk result (string_bytes text.new ≡ string_bytes text.old ++ spelled b) }
{
    if prints(b) {
        return text.push(char::from(b));
    }
    text.push_str("\\x")?;
    text.push(char::from(hex_digit(b / 16)))?;
    text.push(char::from(hex_digit(b % 16)))?;
    Ok(())
}

// The bytes as text, spelled one by one.
pub fn spelled_out(heap: Global, bytes: &[u8]) -> Result<String, AllocError>
    ensures { IfOk result (λ t. string_bytes t ≡ spelled_all bytes.now) }
{
    let mut text = String::new(heap);
    for b in bytes {
        spell(&mut text, *b)?;
    }
    Ok(text)
}

// A block as text: its bytes up to the trailing zeros, spelled one by one.
pub fn shown(heap: Global, bytes: &[u8]) -> Result<String, AllocError>
    ensures { IfOk result (λ t. string_bytes t ≡ shown_of bytes.now) }
{
    spelled_out(heap, trimmed(bytes))
}
