// A receiver whose body is lent: it takes the bytes of a line up to and with the first that does something.
//
// `Receiver::receive` takes a receiver by value, which copies its body for each byte of the line. Here the body stays where it is, and
// what else a receiver has goes by value. The steps stand here once more, in loops of their own: one by one through `receive` a byte
// takes more than ten times as long.
ghost use Rattle.std.specs.Prelude.{◌≡◌, ◌≤◌, true, length};
ghost use Rattle.tpck.specs.Frame.{places};
ghost use Rattle.tpck.specs.Sent.{pending_next};
ghost use Rattle.tpck.specs.Scan.{is_start, is_mark, skip, hunt, scan, joined, receiver_of, control_of, scanned_of, scanned_as};

use crate::event::{Drop, Event};
use crate::receiver::{Meaning, Receiver, close, held, is_full, meaning_of};
use crate::values::{ESC, PLACES, SOF};

// A receiver but for its body, with its flags; four bytes with no gap.
#[repr(C)]
#[derive(Clone, Copy)]
pub struct Control {
    pub inside: bool,
    pub escaped: bool,
    pub len: u16,
}

// What came of some bytes: the control after those used, what the last of them did, and how many they are.
#[derive(Drop)]
pub struct Scanned {
    pub next: Control,
    pub event: Event,
    pub used: usize,
}

// What came of bytes while hunting.
#[derive(Drop)]
enum Hunted {
    // The last byte used is the SOF of a packet: how many they are.
    Opened(usize),
    // All bytes were used and none is a start: whether an escape is pending after them.
    Passed(bool),
}

impl Receiver {
    // The receiver but for its body; a length over PLACES counts as PLACES.
    pub fn control(self) -> Control
        ensures { result ≡ control_of self }
    {
        Control {
            inside: self.inside,
            escaped: self.escaped,
            len: held(self.len) as u16,
        }
    }
}

impl Control {
    // The receiver of this control and these bytes.
    pub fn join(self, bytes: [u8; PLACES]) -> Receiver
        ensures { result ≡ joined self bytes }
    {
        Receiver {
            inside: self.inside,
            escaped: self.escaped,
            len: usize::from(self.len),
            bytes,
        }
    }
}

// Whether a byte is the start of a frame.
fn is_start(escaped: bool, b: u8) -> bool
    ensures { result ≡ is_start escaped b }
{
    !escaped && b == SOF
}

// Whether an escape is pending after a byte.
fn pending_next(escaped: bool, b: u8) -> bool
    ensures { result ≡ pending_next escaped b }
{
    !escaped && b == ESC
}

// Whether a byte matters to a hunt.
fn is_mark(escaped: bool, b: u8) -> bool
    ensures { result ≡ is_mark escaped b }
{
    escaped || b == SOF || b == ESC
}

// How many bytes at the front don't matter to a hunt. A pass of its own: almost all bytes of noise are passed here.
fn skip(escaped: bool, line: &[u8]) -> usize
    ensures { result ≡ skip escaped line.now }
{
    line.iter().take_while(|b| !is_mark(escaped, **b)).count()
}

// Takes bytes while hunting, up to and with the start of a frame.
fn hunt(escaped: bool, line: &[u8]) -> Hunted
    ensures { result ≡ hunt escaped line.now }
{
    let mut pending = escaped;
    let mut used = skip(escaped, line);
    // A while and no for: each turn goes on by as many bytes as `skip` counts.
    while used < line.len() {
        let b = line[used];
        used += 1;
        if is_start(pending, b) {
            return Hunted::Opened(used);
        }
        pending = pending_next(pending, b);
        used += skip(pending, &line[used..]);
    }
    Hunted::Passed(pending)
}

// The answer of these parts.
fn answer(inside: bool, escaped: bool, len: usize, event: Event, used: usize) -> Scanned
    requires { len ≤ places }
    ensures { result ≡ scanned_as inside escaped len event used }
{
    Scanned {
        next: Control {
            inside,
            escaped,
            len: len as u16,
        },
        event,
        used,
    }
}

// Takes bytes inside a packet, up to and with the first that does something.
fn collect(escaped: bool, len: usize, body: &mut [u8], line: &[u8]) -> Scanned
    requires held { len ≤ places }
    requires whole { length body.old ≡ places }
    ensures answer { result ≡ scanned_of (scan (receiver_of true escaped len body.old) line.now) }
    ensures body { body.new ≡ (scan (receiver_of true escaped len body.old) line.now).next.bytes }
{
    let mut pending = escaped;
    let mut n = len;
    for (i, &b) in line.iter().enumerate() {
        match meaning_of(pending, b) {
            Meaning::Escape => pending = true,
            Meaning::Start => {
                return answer(true, false, 0, Event::Dropped(Drop::Restarted, n), i + 1);
            }
            Meaning::End => return answer(false, false, n, close(&body[..n]), i + 1),
            Meaning::Plain => {
                if is_full(body[0], n) {
                    return answer(false, false, n, Event::Dropped(Drop::TooLong, n), i + 1);
                }
                pending = false;
                body[n] = b;
                n += 1;
            }
        }
    }
    answer(true, pending, n, Event::Nothing, line.len())
}

// Takes bytes of the line up to and with the first that does something, or all of them. A length over PLACES counts as PLACES.
pub fn scan(control: Control, body: &mut [u8; PLACES], line: &[u8]) -> Scanned
    ensures answer { result ≡ scanned_of (scan (joined control body.old) line.now) }
    ensures body { body.new ≡ (scan (joined control body.old) line.now).next.bytes }
{
    let len = held(usize::from(control.len));
    if control.inside {
        return collect(control.escaped, len, body, line);
    }
    match hunt(control.escaped, line) {
        Hunted::Opened(used) => {
            let collected = collect(false, 0, body, &line[used..]);
            Scanned {
                used: used + collected.used,
                ..collected
            }
        }
        Hunted::Passed(escaped) => answer(false, escaped, len, Event::Nothing, line.len()),
    }
}
