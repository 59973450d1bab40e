// The refusals that every make of device shares, in their order.
ghost use Rattle.std.specs.Prelude.{◌≡◌, ◌<◌, false, if◌then◌else◌, Ok, Err, OnOk, ◌==◌, nat_eq, nat_lt};
ghost use Rattle.device.specs.declared.DeviceFault.TheVariants.{Range, Measure};
ghost use Rattle.device.specs.Disk.{readable, writable};
ghost use Rattle.device.specs.Makes.{carried};

use crate::DeviceFault;
use crate::supply::Supply;

fn in_range(count: usize, block: usize) -> Result<(), DeviceFault>
    ensures answer { result ≡ (if nat_lt block count then Ok tt else Err Range) }
    ensures passed { OnOk result (block < count) }
{
    if block >= count {
        return Err(DeviceFault::Range);
    }
    Ok(())
}

fn one_block(length: usize) -> Result<(), DeviceFault>
    ensures answer { result ≡ (if nat_eq length 512 then Ok tt else Err Measure) }
    ensures passed { OnOk result (length ≡ 512) }
{
    if length != 512 {
        return Err(DeviceFault::Measure);
    }
    Ok(())
}

pub fn may_read(count: usize, block: usize, length: usize) -> Result<(), DeviceFault>
    ensures answer { result ≡ readable count block length }
    ensures passed { OnOk result ((block < count) × (length ≡ 512)) }
{
    in_range(count, block)?;
    one_block(length)
}

pub fn may_write(
    count: usize,
    supply: Supply,
    block: usize,
    length: usize,
) -> Result<(), DeviceFault>
    ensures answer { result ≡ writable count (carried supply.left) block length }
    ensures passed { OnOk result ((block < count) × ((carried supply.left == 0) ≡ false) × (length ≡ 512)) }
{
    in_range(count, block)?;
    if supply.is_out() {
        return Err(DeviceFault::Died);
    }
    one_block(length)
}
