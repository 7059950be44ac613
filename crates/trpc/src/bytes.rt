// Numbers and dates in the content of a frame, low byte first. A place past the content reads as 0.
ghost use Rattle.std.specs.Prelude.{◌≡◌};
ghost use Rattle.trpc.specs.Bytes.{byte_at, word_at, long_at};
ghost use Rattle.trpc.specs.Date.{date_in};

use dates::Date;

// The byte at a place of the content.
pub fn byte_at(content: &[u8], i: usize) -> u8
    ensures { result ≡ byte_at content.now i }
{
    content.get(i).copied().unwrap_or(0)
}

// The number in two bytes, from a place on.
pub fn word_at(content: &[u8], i: usize) -> u16
    ensures { result ≡ word_at content.now i }
{
    u16::from_le_bytes([byte_at(content, i), byte_at(content, i.saturating_add(1))])
}

// The number in four bytes, from a place on.
pub fn long_at(content: &[u8], i: usize) -> u32
    ensures { result ≡ long_at content.now i }
{
    u32::from_le_bytes([
        byte_at(content, i),
        byte_at(content, i.saturating_add(1)),
        byte_at(content, i.saturating_add(2)),
        byte_at(content, i.saturating_add(3)),
    ])
}

// The date that an Update of DateTime carries.
#[tactic(auto, unfolding(crate::specs::Date::date_in))]
pub fn date_in(content: &[u8]) -> Date
    ensures { result ≡ date_in content.now }
{
    Date {
        year: word_at(content, 5),
        month: byte_at(content, 7),
        day: byte_at(content, 8),
        weekday: byte_at(content, 9),
        hour: byte_at(content, 10),
        minute: byte_at(content, 11),
    }
}
