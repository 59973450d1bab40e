// The block writes that a device's power still carries.
ghost use Rattle.std.specs.Prelude.{◌≡◌, ◌<◌, ◌≤◌, cond, MatchResult, ◌==◌};
ghost use Rattle.device.specs.declared.DeviceFault.TheVariants.{Measure};
ghost use Rattle.device.specs.Disk.{spent};
ghost use Rattle.device.specs.Makes.{carried};

use crate::DeviceFault;

// Mains never falls. It is a number among the supplies, as the rules have it, and not a variant beside them.
const MAINS: u32 = 1_000_001;

// Every number above mains means mains too, so that each value of the type has a meaning. A ghost field that rules them out
// was tried: a function that answers a make, which holds a `&mut` beside its supply, then gets no proof.
#[derive(Clone, Copy)]
pub struct Supply {
    left: u32,
}

#[tactic(auto, unfolding(crate::specs::Makes::carried))]
impl TryFrom<u32> for Supply {
    type Error = DeviceFault;

    ghost try_from_gives = { λ n r. MatchResult r (λ s. (n ≤ 1000001) × (carried s.left ≡ n)) (λ e. (1000001 < n) × (e ≡ Measure)) };

    fn try_from(left: u32) -> Result<Supply, DeviceFault> {
        if left > MAINS {
            return Err(DeviceFault::Measure);
        }
        Ok(Supply { left })
    }
}

#[tactic(auto, unfolding(crate::specs::Makes::carried))]
impl Supply {
    pub fn mains() -> Supply
        ensures { carried result.left ≡ 1000001 }
    {
        Supply { left: MAINS }
    }

    pub fn is_out(self) -> bool
        ensures { result ≡ (carried self.left == 0) }
    {
        self.left == 0
    }

    // What is left after one more block write.
    pub fn spend(self) -> Supply
        ensures { carried result.left ≡ spent (carried self.left) }
    {
        if self.left >= MAINS {
            return self;
        }
        Supply {
            left: self.left.saturating_sub(1),
        }
    }
}
