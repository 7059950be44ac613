// The receiver of one line, by value: it is hunting or inside a packet, and has an escape pending or not.
ghost use Rattle.std.specs.Prelude.{◌≡◌, ◌+◌, min};
ghost use Rattle.tpck.specs.Frame.{places};
ghost use Rattle.tpck.specs.Receive.{receive, fresh, store, plain_data, start_of_frame, end_of_frame, close, pending_escape, view, is_full, meaning_of};

use crate::checksum::checksum_of;
use crate::event::{Drop, Event};
use crate::values::{EOF, ESC, PLACES, SOF};

// The body is the first `len` of `bytes`; all of them where `len` is over PLACES. It has a layout in C, so two flags and a length stand
// beside the array.
#[repr(C)]
#[derive(Clone, Copy)]
pub struct Receiver {
    pub inside: bool,
    pub escaped: bool,
    pub len: usize,
    pub bytes: [u8; PLACES],
}

// What a byte results in: the next receiver, and what the byte did.
#[derive(Drop)]
pub struct Received {
    pub next: Receiver,
    pub event: Event,
}

// What a byte is to a receiver, by its value and whether an escape is pending.
#[derive(Drop)]
pub(crate) enum Meaning {
    // An escape, which becomes pending.
    Escape,
    // SOF.
    Start,
    // EOF.
    End,
    // Plain data.
    Plain,
}

// What a byte means. It takes no receiver, so none is copied to tell.
pub(crate) fn meaning_of(escaped: bool, b: u8) -> Meaning
    ensures { result ≡ meaning_of escaped b }
{
    if escaped {
        return Meaning::Plain;
    }
    match b {
        ESC => Meaning::Escape,
        SOF => Meaning::Start,
        EOF => Meaning::End,
        _ => Meaning::Plain,
    }
}

// The length of the body: `len`, or PLACES where `len` is over it. A caller may hand over any receiver, also one that no byte has
// left, so `len` is cut before it is used as a place.
pub(crate) fn held(len: usize) -> usize
    ensures { result ≡ min len places }
{
    len.min(PLACES)
}

// Whether a body of `len` bytes, of which `first` is the first, has the bytes that it announces.
pub(crate) fn is_full(first: u8, len: usize) -> bool
    ensures { result ≡ is_full first len }
{
    usize::from(first) + 3 <= len
}

// What EOF inside a packet does with the body: a drop, or the frame that it holds.
pub(crate) fn close(body: &[u8]) -> Event
    ensures { result ≡ close body.now }
{
    let len = body.len();
    if len == 0 || !is_full(body[0], len) {
        return Event::Dropped(Drop::Early, len);
    }
    let size = body[0];
    let place = usize::from(size) + 2;
    if checksum_of(&body[..place]) == body[place] {
        Event::Frame(body[1], size)
    } else {
        Event::Dropped(Drop::Checksum, len)
    }
}

impl Receiver {
    // A fresh receiver hunts, with no escape pending.
    pub fn fresh() -> Self
        ensures { result ≡ fresh }
    {
        Receiver {
            inside: false,
            escaped: false,
            len: 0,
            bytes: [0u8; PLACES],
        }
    }

    // An escape: it becomes pending, and nothing else.
    fn escape(&mut self) -> Event
        ensures next { self.new ≡ store self.old (pending_escape (view self.old)).next }
        ensures event { result ≡ (pending_escape (view self.old)).event }
    {
        self.len = held(self.len);
        self.escaped = true;
        Event::Nothing
    }

    // A byte of plain data: skipped, added to the body, or one too many.
    fn plain_data(&mut self, b: u8) -> Event
        ensures next { self.new ≡ store self.old (plain_data (view self.old) b).next }
        ensures event { result ≡ (plain_data (view self.old) b).event }
    {
        let len = held(self.len);
        self.len = len;
        self.escaped = false;
        if !self.inside {
            return Event::Nothing;
        }
        if is_full(self.bytes[0], len) {
            self.inside = false;
            return Event::Dropped(Drop::TooLong, len);
        }
        self.bytes[len] = b;
        self.len = len + 1;
        Event::Nothing
    }

    // SOF: a packet with an empty body is open.
    fn start_of_frame(&mut self) -> Event
        ensures next { self.new ≡ store self.old (start_of_frame (view self.old)).next }
        ensures event { result ≡ (start_of_frame (view self.old)).event }
    {
        let event = if self.inside {
            Event::Dropped(Drop::Restarted, held(self.len))
        } else {
            Event::Nothing
        };
        self.inside = true;
        self.escaped = false;
        self.len = 0;
        event
    }

    // EOF: the packet, if one is open, is complete or dropped.
    fn end_of_frame(&mut self) -> Event
        ensures next { self.new ≡ store self.old (end_of_frame (view self.old)).next }
        ensures event { result ≡ (end_of_frame (view self.old)).event }
    {
        let len = held(self.len);
        let event = if self.inside {
            close(&self.bytes[..len])
        } else {
            Event::Nothing
        };
        self.inside = false;
        self.escaped = false;
        self.len = len;
        event
    }

    // Takes one byte of the line, by what it means.
    pub fn receive(mut self, b: u8) -> Received
        ensures { result ≡ receive self b }
    {
        let event = match meaning_of(self.escaped, b) {
            Meaning::Escape => self.escape(),
            Meaning::Start => self.start_of_frame(),
            Meaning::End => self.end_of_frame(),
            Meaning::Plain => self.plain_data(b),
        };
        Received { next: self, event }
    }
}
