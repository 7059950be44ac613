// The parts of a gateway that the bytes of a line change. A gateway goes by value, so a loop over bytes that handed it on would copy
// all of it for each event; here the body of the line's receiver is lent, the rows stay where they are, and only these parts go by
// value.
ghost use Rattle.std.specs.Prelude.{◌≡◌};
ghost use Rattle.blocks.specs.Parts.{moving_of, body_of, with_moving};

use gateway::Gateway;
use tpck::{Control, PLACES};
use trpc::Properties;
use updates::{Line, Queue};

// The line's receiver but for its body, the updates that wait, and what the gateway holds itself.
#[derive(Drop)]
pub struct Moving {
    pub control: Control,
    pub queue: Queue,
    pub properties: Properties,
}

// The bytes of the body of the line's receiver.
pub fn body_of(gateway: Gateway, line: Line) -> [u8; PLACES]
    ensures { result ≡ body_of gateway line }
{
    gateway.receivers.on(line).bytes
}

impl Moving {
    // The parts that bytes of the line change.
    pub fn of(gateway: Gateway, line: Line) -> Moving
        ensures { result ≡ moving_of gateway line }
    {
        Moving {
            control: gateway.receivers.on(line).control(),
            queue: gateway.queue,
            properties: gateway.properties,
        }
    }

    // The gateway with these parts, and the line's body, in place of its own.
    pub fn into(self, mut gateway: Gateway, line: Line, body: [u8; PLACES]) -> Gateway
        ensures { result ≡ with_moving gateway line self body }
    {
        gateway.receivers = gateway.receivers.with(line, self.control.join(body));
        gateway.queue = self.queue;
        gateway.properties = self.properties;
        gateway
    }
}
