// The quick-sync bitmap in memory: data block i is bit i mod 8, lowest first, of byte i div 8.
#![tactic(auto)]

ghost use Rattle.std.specs.Prelude.{◌≡◌, ℕ, ◌<◌, length, slice_index};

mod work;

// One bit for each data block that a card can have.
#[derive(Clone, Copy)]
pub struct Bitmap {
    bytes: [u8; 512],
    // What callers know of the bytes that `as_bytes` lends.
    ghost whole: { length bytes ≡ 512 },
    ghost octets: { (k : ℕ) → slice_index bytes k < 256 },
}

// The first byte that is wrong in what was to be read as a bitmap.
#[derive(Clone, Copy, PartialEq, Eq, Debug)]
pub struct BitmapFault {
    pub byte: usize,
}
