// The two lines of a gateway: the building controller's and the engineers' panel's.
ghost use Rattle.std.specs.Prelude.{◌≡◌};
ghost use Rattle.updates.specs.Line.{line_of, line_number};

// The line that a byte comes from; an update's answer goes to the line whose byte queued it.
#[derive(Clone, Copy, PartialEq, Eq)]
pub enum Line {
    Controller,
    Panel,
}

impl Line {
    // The line that a number stands for: 0 is the controller's, every other number the panel's. No From, which would not say so.
    #[tactic(auto, unfolding(crate::specs::Line::line_of))]
    pub fn of(number: u8) -> Line
        ensures { result ≡ line_of number }
    {
        if number == 0 {
            Line::Controller
        } else {
            Line::Panel
        }
    }

    // The number that stands for the line, in what C sees. A method and no From, since its name says which number.
    pub fn number(self) -> u8
        ensures { result ≡ line_number self }
    {
        match self {
            Line::Controller => 0,
            Line::Panel => 1,
        }
    }
}
