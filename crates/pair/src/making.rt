// Making a pair, and taking it apart.
ghost use Rattle.std.specs.Prelude.{◌≡◌};
ghost use Rattle.pair.specs.Making.{Makes};

use crate::{Pair, Unpaired};
use card::making::data_blocks;
use device::Device;
use link::Link;
use station::Station;

impl<A: Device, B: Device, L: Link> Pair<A, B, L> {
    // Two devices of equal count, 4 to 4,099 blocks, and a link, which is cut; nothing is read from the devices. What does not fit is
    // handed back, which counts as refusal 2.
    pub fn new(zero: A, one: B, mut link: L) -> Result<Pair<A, B, L>, Unpaired<A, B, L>>
        ensures { Makes A.Device.means B.Device.means L.Link.means zero one link result }
    {
        if zero.count() != one.count() || data_blocks(zero.count()).is_err() {
            return Err(Unpaired { zero, one, link });
        }
        link.cut();
        Ok(Pair {
            zero: Station::down(zero),
            one: Station::down(one),
            link,
        })
    }

    // What was lent comes back: the devices as the calls left them, and the link.
    pub fn into_parts(self) -> (A, B, L)
        ensures { (result.0 ≡ self.zero.device) × ((result.1 ≡ self.one.device) × (result.2 ≡ self.link)) }
    {
        (self.zero.device, self.one.device, self.link)
    }
}
