// The activity record, a card's block 1.
ghost use Rattle.std.specs.Prelude.{◌≡◌, ℕ, ◌^◌, ◌<◌, length, slice_index};

mod log;

// The extents that may hold unfinished writes. A slot is 0 while it is empty, and else 1 plus its extent: these numbers, and no
// Option, since they are what the card's format has in its fields, and as wide as a field's number, so that a row is read and written
// without a second array.
#[derive(Clone, Copy)]
pub struct Activity {
    slots: [u64; 16],
    ghost whole: { length slots ≡ 16 },
    ghost small: { (slot : ℕ) → slice_index slots slot < 2 ^ 32 },
}
