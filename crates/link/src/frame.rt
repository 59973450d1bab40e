// A frame: 1 to 537 bytes, held by value.
ghost use Rattle.std.specs.Prelude.{◌≡◌, ◌≤◌, length};

use crate::LinkFault;

// The longest frame.
const MOST: usize = 537;

// A length beside a buffer, since the boxes that hold frames have no heap.
// No `impl Model` hides the two: every frame in a lane brings the bounds of its length along, which a list of bytes would not.
#[derive(Clone, Copy)]
pub struct Frame {
    len: usize,
    bytes: [u8; MOST],
    ghost whole: { length bytes ≡ 537 },
    ghost some: { 1 ≤ len },
    ghost within: { len ≤ 537 },
}

impl Frame {
    ghost use Rattle.std.specs.Prelude.{false, replicate, MatchResult};
    ghost use Rattle.link.specs.declared.LinkFault.TheVariants.{Size};
    ghost use Rattle.link.specs.Channel.{is_frame};
    ghost use Rattle.link.specs.Makes.{bytes_of};

    pub fn new(bytes: &[u8]) -> Result<Frame, LinkFault>
        ensures { MatchResult result (λ f. bytes_of f ≡ bytes.now) (λ e. (e ≡ Size) × (is_frame bytes.now ≡ false)) }
    {
        let len = bytes.len();
        if !(1..=MOST).contains(&len) {
            return Err(LinkFault::Size);
        }
        let mut all = [0u8; MOST];
        all[..len].copy_from_slice(bytes);
        Ok(Frame { len, bytes: all })
    }

    // The shortest frame, for a place that is not in use.
    pub(crate) fn blank() -> Frame
        ensures { (result.len ≡ 1) × (result.bytes ≡ replicate 537 0) }
    {
        Frame {
            len: 1,
            bytes: [0u8; MOST],
        }
    }

    pub fn bytes(&self) -> &[u8]
        ensures { result.now ≡ bytes_of self.now }
    {
        &self.bytes[..self.len]
    }
}
