// What a byte of the line does at the packet layer: nothing, a dropped packet, or a complete frame.
ghost use Rattle.std.specs.Prelude.{◌≡◌};
ghost use Rattle.tpck.specs.Event.{drop_number, is_drop};

// Why a packet was dropped.
#[derive(Clone, Copy)]
pub enum Drop {
    // SOF inside a packet.
    Restarted,
    // EOF before the body had all its bytes.
    Early,
    // A byte of data past the last one of the body.
    TooLong,
    // The checksum does not agree.
    Checksum,
}

// What a byte did: one of three things, none of them a refusal of the call, so it is neither an Option nor a Result.
#[derive(Drop)]
pub enum Event {
    // Nothing that is told.
    Nothing,
    // A packet was dropped: why, and how many body bytes it had taken since its SOF. The byte that drops it is none of them.
    Dropped(Drop, usize),
    // A complete frame: its type and the number of its data bytes. The data are the receiver's `bytes` from place 2 on.
    Frame(u8, u8),
}

impl Drop {
    // Document 01's number. A method and no From, since its name says which number.
    pub fn number(self) -> u8
        ensures { result ≡ drop_number self }
    {
        match self {
            Drop::Restarted => 3,
            Drop::Early => 4,
            Drop::TooLong => 5,
            Drop::Checksum => 6,
        }
    }
}

// Whether a number is that of a drop.
pub fn is_drop(number: u8) -> bool
    ensures { result ≡ is_drop number }
{
    matches!(number, 3..=6)
}
