// Masks of 32 places: the lowest place, and the mask of the rows that have an attribute.
ghost use Rattle.std.specs.Prelude.{◌≡◌, ◌-◌, ◌^◌, ◌<◌};
ghost use Rattle.std.specs.Int.Count.{count_trailing_zeros};
ghost use Rattle.devices.specs.Table.{rows_of};
ghost use Rattle.reports.specs.Mask.{mask_where};
ghost use Rattle.reports.specs.Due.{with_bit};

use devices::Table;

// Takes the lowest place out of a mask that has one.
pub(crate) fn take_lowest(mask: &mut u32) -> usize
    requires { count_trailing_zeros 32 mask.old < 32 }
    ensures place { result ≡ count_trailing_zeros 32 mask.old }
    ensures rest { mask.new ≡ mask.old - 2 ^ count_trailing_zeros 32 mask.old }
{
    let place = mask.trailing_zeros();
    *mask -= 1 << place;
    place as usize
}

// The rows of the devices that have an attribute, the last row first.
pub(crate) fn rows_with(table: Table, bit: u16) -> u32
    ensures { result ≡ mask_where (with_bit bit) (rows_of table) }
{
    let mut mask: u32 = 0;
    for i in (0..table.used()).rev() {
        mask = mask * 2 + u32::from(table.at(i).mask & bit != 0);
    }
    mask
}
