// The gateway that the listing starts with.
ghost use Rattle.std.specs.Prelude.{◌≡◌};
ghost use Rattle.gateway.specs.View.{view};
ghost use Rattle.listing.specs.First.{only_row, first_gateway};

use devices::Row;
use gateway::Gateway;

// The one row of its table.
fn only_row() -> Row
    ensures { result ≡ only_row }
{
    Row {
        address: 1,
        version: 112810,
        mask: 0x0B,
        mode: 0,
        state: 4,
        events: 0,
        cool: [44; 7],
        slab: [0xFF; 7],
        fan: [0; 7],
    }
}

// A fresh gateway with that row; network error, firmware and protocol numbers are 0.
pub(crate) fn first_gateway() -> Gateway
    ensures { view result ≡ first_gateway }
{
    Gateway::fresh(0, 0).add(only_row()).gateway
}
