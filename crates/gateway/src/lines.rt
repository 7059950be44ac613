// The receivers of the two lines.
ghost use Rattle.std.specs.Prelude.{◌≡◌};
ghost use Rattle.gateway.specs.View.{receiver_on, receivers_with};
ghost use Rattle.gateway.specs.Results.{fresh_receivers};

use tpck::Receiver;
use updates::Line;

// A receiver for each line.
#[repr(C)]
#[derive(Clone, Copy)]
pub struct Receivers {
    pub controller: Receiver,
    pub panel: Receiver,
}

impl Receivers {
    // Both fresh.
    #[tactic(auto, unfolding(crate::specs::Results::fresh_receivers))]
    pub fn fresh() -> Receivers
        ensures { result ≡ fresh_receivers }
    {
        Receivers {
            controller: Receiver::fresh(),
            panel: Receiver::fresh(),
        }
    }

    // The receiver of a line.
    pub fn on(self, line: Line) -> Receiver
        ensures { result ≡ receiver_on self line }
    {
        match line {
            Line::Controller => self.controller,
            Line::Panel => self.panel,
        }
    }

    // The receivers with another one on a line; the other line's stays.
    pub fn with(mut self, line: Line, receiver: Receiver) -> Receivers
        ensures { result ≡ receivers_with self line receiver }
    {
        match line {
            Line::Controller => self.controller = receiver,
            Line::Panel => self.panel = receiver,
        }
        self
    }
}
