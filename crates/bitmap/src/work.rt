// What is done with a bitmap.
ghost use Rattle.std.specs.Prelude.{◌≡◌, ◌-◌, ◌*◌, ◌%◌, ◌^◌, min, not, ◌==◌};
ghost use Rattle.std.specs.List.{position};
ghost use Rattle.bitmap.specs.Bits.{bit, empty, with, without, with_extent, first, union, counted, next};
ghost use Rattle.bitmap.specs.Bytes.{bytes_of, read_answer};

use crate::{Bitmap, BitmapFault};
use std::array;

const BYTES: usize = 512;

const BITS: usize = 4096;

// An extent is eight bytes.
const EXTENTS: usize = 64;

// The bit of data block i in its byte.
fn mask(i: usize) -> u8
    ensures { result ≡ 2 ^ (i % 8) }
{
    1 << (i % 8)
}

// The bits of byte k whose data blocks are below `blocks`.
fn below(blocks: usize, k: usize) -> u8
    ensures { result ≡ 2 ^ (min 8 (blocks - k * 8)) - 1 }
{
    // By two comparisons: `cmp` takes `mark_all` twice the time.
    let full = blocks / 8;
    if k < full {
        255
    } else if k > full {
        0
    } else {
        (1 << (blocks % 8)) - 1
    }
}

// The first byte in which a bit is set.
fn first_with_a_bit(bytes: &[u8]) -> Option<usize>
    ensures { result ≡ position (λ byte. not (byte == 0)) bytes.now }
{
    bytes.iter().position(|byte| *byte != 0)
}

impl Bitmap {
    pub fn new() -> Bitmap
        ensures { result.bytes ≡ empty }
    {
        Bitmap { bytes: [0; BYTES] }
    }

    pub fn as_bytes(&self) -> &[u8]
        ensures { result.now ≡ self.now.bytes }
    {
        self.bytes.as_slice()
    }

    #[tactic(auto, using(crate::proofs::Packing::bit_test, crate::proofs::Packing::bit_past))]
    pub fn test(&self, i: usize) -> bool
        ensures { result ≡ bit self.now.bytes i }
    {
        i < BITS && (self.bytes[i / 8] >> (i % 8)) & 1 == 1
    }

    pub fn set(&mut self, i: usize)
        ensures { self.new.bytes ≡ with self.old.bytes i }
    {
        if i < BITS {
            self.bytes[i / 8] |= mask(i);
        }
    }

    pub fn clear(&mut self, i: usize)
        ensures { self.new.bytes ≡ without self.old.bytes i }
    {
        if i < BITS {
            self.bytes[i / 8] &= !mask(i);
        }
    }

    // Sets the bits of an extent's data blocks, as far as there are so many blocks.
    pub fn mark_extent(&mut self, extent: usize, blocks: usize)
        ensures { self.new.bytes ≡ with_extent self.old.bytes extent blocks }
    {
        if extent < EXTENTS {
            let from = extent * 8;
            for (k, byte) in self.bytes[from..from + 8].iter_mut().enumerate() {
                *byte |= below(blocks, from + k);
            }
        }
    }

    // Sets the bits of the first `blocks` data blocks, and clears all others.
    pub fn mark_all(&mut self, blocks: usize)
        ensures { self.new.bytes ≡ first blocks }
    {
        self.bytes = array::from_fn(|k| below(blocks, k));
    }

    pub fn union(&mut self, other: &Bitmap)
        ensures { self.new.bytes ≡ union self.old.bytes other.now.bytes }
    {
        self.bytes = array::from_fn(|k| self.bytes[k] | other.bytes[k]);
    }

    pub fn count(&self) -> usize
        ensures { result ≡ counted 4096 (bit self.now.bytes) }
    {
        self.bytes
            .iter()
            .map(|byte| byte.count_ones() as usize)
            .sum()
    }

    // The first set bit that is not below `from`.
    pub fn next_set(&self, from: usize) -> Option<usize>
        ensures { result ≡ next (bit self.now.bytes) from (4096 - from) }
    {
        // The byte that `from` stands in, without the bits below it.
        let rest = self.bytes.get(from / 8)? >> (from % 8);
        if rest != 0 {
            return Some(from + rest.trailing_zeros() as usize);
        }
        let after = from / 8 + 1;
        let k = after + first_with_a_bit(&self.bytes[after..])?;
        Some(k * 8 + self.bytes[k].trailing_zeros() as usize)
    }

    // Refuses bytes of another length, and the first byte with a bit that no data block has.
    #[tactic(auto, using(crate::proofs::Laws::read_as))]
    pub fn from_bytes(bytes: &[u8], blocks: usize) -> Result<Bitmap, BitmapFault>
        ensures { bytes_of result ≡ read_answer bytes.now blocks }
    {
        let Ok(bytes) = bytes.try_into() else {
            return Err(BitmapFault {
                byte: bytes.len().min(BYTES),
            });
        };
        let map = Bitmap { bytes };
        if let Some(i) = map.next_set(blocks) {
            return Err(BitmapFault { byte: i / 8 });
        }
        Ok(map)
    }
}
