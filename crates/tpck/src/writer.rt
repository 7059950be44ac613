// The frame writer: a type and data become a frame in a lent buffer.
ghost use Rattle.std.specs.Prelude.{◌≡◌, ◌+◌, ◌≤◌, [], ◌∷◌, ◌++◌, length};
ghost use Rattle.std.proofs.lemmas.List.Edits.{sets};
ghost use Rattle.tpck.specs.Frame.{most_data, special, stuffed, checksum, enclosed};
ghost use Rattle.tpck.specs.Write.{refusal_number, write, buffer, Wrote};

use crate::values::{EOF, ESC, SOF};

// Why nothing was written.
#[derive(Drop)]
pub enum Refusal {
    // The buffer is shorter than the frame.
    NoRoom,
    // More than 255 data bytes.
    TooMuchData,
}

// What the data of a frame come to: how many escapes stand in them, and the checksum.
#[derive(Clone, Copy)]
struct Measured {
    escapes: u8,
    sum: u8,
}

// A buffer that is written from its front on, and the place of the next byte.
#[derive(Drop)]
struct Front<'a> {
    out: &'a mut [u8],
    at: usize,
}

impl Refusal {
    // Document 01's number. A method and no From, since its name says which number.
    pub fn number(self) -> u8
        ensures { result ≡ refusal_number self }
    {
        match self {
            Refusal::NoRoom => 1,
            Refusal::TooMuchData => 2,
        }
    }
}

// Whether an escape stands before the byte.
fn is_special(b: u8) -> bool
    ensures { result ≡ special b }
{
    b == SOF || b == EOF || b == ESC
}

// The number of escapes before a byte, one or none.
fn escapes(b: u8) -> u8
    ensures { result + 1 ≡ length (stuffed (b ∷ [])) }
{
    u8::from(is_special(b))
}

// The number of bytes that a byte takes on the line.
fn width(b: u8) -> usize
    ensures { result ≡ length (stuffed (b ∷ [])) }
{
    usize::from(escapes(b)) + 1
}

// The escapes in `s` and the checksum of `start` and `s`, in one loop. The sum wraps; at most 255 bytes have at most 255 escapes.
fn measure(start: u8, s: &[u8]) -> Measured
    requires { length s.now ≤ most_data }
    ensures escapes { result.escapes + length s.now ≡ length (stuffed s.now) }
    ensures sum { result.sum ≡ checksum (start ∷ s.now) }
{
    let mut count: u8 = 0;
    let mut sum = start;
    for &b in s {
        sum = sum.wrapping_add(b);
        count += escapes(b);
    }
    Measured {
        escapes: count,
        sum,
    }
}

// The number of bytes of the frame of `size` data bytes that were measured.
fn frame_width(size: u8, ptype: u8, measured: Measured) -> usize
    ensures { result ≡ length (stuffed (size ∷ [])) + length (stuffed (ptype ∷ [])) + (measured.escapes + size)
        + length (stuffed (measured.sum ∷ [])) + 2 }
{
    width(size)
        + width(ptype)
        + (usize::from(measured.escapes) + usize::from(size))
        + width(measured.sum)
        + 2
}

impl Front<'_> {
    // Writes a byte as it is.
    fn put_bare(&mut self, b: u8)
        requires { self.old.at + 1 ≤ length self.old.out.now }
        ensures same_buffer { self.new.out.ghost_name ≡ self.old.out.ghost_name }
        ensures wrote { Wrote (b ∷ []) self.old.out.now self.old.at self.new.out.now self.new.at }
    {
        self.out[self.at] = b;
        self.at += 1;
    }

    // Writes a byte, an escape before it where one is needed.
    fn put(&mut self, b: u8)
        requires { self.old.at + length (stuffed (b ∷ [])) ≤ length self.old.out.now }
        ensures same_buffer { self.new.out.ghost_name ≡ self.old.out.ghost_name }
        ensures wrote { Wrote (stuffed (b ∷ [])) self.old.out.now self.old.at self.new.out.now self.new.at }
    {
        if is_special(b) {
            self.put_bare(ESC);
        }
        self.put_bare(b);
    }

    // Writes each byte of `s` so.
    fn put_all(&mut self, s: &[u8])
        requires { self.old.at + length (stuffed s.now) ≤ length self.old.out.now }
        ensures same_buffer { self.new.out.ghost_name ≡ self.old.out.ghost_name }
        ensures wrote { Wrote (stuffed s.now) self.old.out.now self.old.at self.new.out.now self.new.at }
    {
        for &b in s {
            self.put(b);
        }
    }
}

// Writes the frame of a header, data and a checksum.
fn put_frame(out: &mut [u8], size: u8, ptype: u8, s: &[u8], sum: u8)
    requires { length (enclosed (size ∷ ptype ∷ s.now ++ sum ∷ [])) ≤ length out.old }
    ensures { out.new ≡ sets out.old 0 (enclosed (size ∷ ptype ∷ s.now ++ sum ∷ [])) }
{
    let mut front = Front { out, at: 0 };
    front.put_bare(SOF);
    front.put(size);
    front.put(ptype);
    front.put_all(s);
    front.put(sum);
    front.put_bare(EOF);
}

// Writes the frame of a type and data at the front of `out` and gives its length, or refuses and writes nothing.
pub fn write(ptype: u8, bytes: &[u8], out: &mut [u8]) -> Result<usize, Refusal>
    ensures answer { result ≡ write ptype bytes.now out.old }
    ensures buffer { out.new ≡ buffer ptype bytes.now out.old }
{
    let Ok(size) = u8::try_from(bytes.len()) else {
        return Err(Refusal::TooMuchData);
    };
    let measured = measure(size.wrapping_add(ptype), bytes);
    let width = frame_width(size, ptype, measured);
    if out.len() < width {
        return Err(Refusal::NoRoom);
    }
    put_frame(out, size, ptype, bytes, measured.sum);
    Ok(width)
}
