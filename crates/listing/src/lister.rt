// What the listing keeps from block to block, and what a block does to it.
ghost use Rattle.std.specs.Prelude.{◌≡◌, ◌*◌, ◌≤◌, length};
ghost use mathlib.Core.List.{foldl};
ghost use Rattle.gateway.specs.View.{view};
ghost use Rattle.text.specs.Place.{Puts};
ghost use Rattle.text.specs.Report.{report, carried_after, lines_of};
ghost use Rattle.text.proofs.Reports.{no_lines, lines_of_both};
ghost use Rattle.listing.specs.Lines.{line_room};
ghost use Rattle.listing.specs.Listing.{next, line_of, at_first};
ghost use Rattle.listing.specs.Lister.{carried};

use crate::first::first_gateway;
use crate::line::{ROOM, answer_line};
use blocks::{Moving, answer, body_of, reach};
use console::Listener;
use gateway::Gateway;
use text::Text;
use updates::Line;

// Room for the line of one byte.
pub(crate) const LINE_ROOM: usize = 256;

// Takes some bytes, the first of them at the offset, puts all their lines, and gives the gateway after them. It goes from event to
// event: the bytes before an event print nothing, and its line has the offset of its last byte. The loop counts by hand, since an
// event says only when it is reached how many bytes it took.
fn list(gateway: Gateway, offset: u64, bytes: &[u8], text: &mut Text) -> Gateway
    ensures after { view result ≡ foldl next (view gateway) bytes.now }
    ensures lines { Puts (report next line_of (view gateway) offset bytes.now) text.old text.new }
    ensures short { length (report next line_of (view gateway) offset bytes.now) ≤ length bytes.now * line_room }
{
    let addresses = gateway.table.addresses();
    let listed = &addresses[..gateway.table.used()];
    let mut body = body_of(gateway, Line::Controller);
    let mut moving = Moving::of(gateway, Line::Controller);
    let mut reply = [0; ROOM];
    let mut used = 0;
    while used < bytes.len() {
        let reached = reach(moving.control, &mut body, listed, &bytes[used..]);
        let row = gateway.table.rows[reached.place];
        let answered = answer(moving, Line::Controller, reached, row, &body, &mut reply);
        moving = answered.moving;
        used += reached.used;
        let last = offset.wrapping_add((used - 1) as u64);
        answer_line(text, last, answered.answer, &reply);
    }
    moving.into(gateway, Line::Controller, body)
}

// The gateway, and the offset of the next byte.
#[derive(Drop)]
pub struct Lister {
    pub gateway: Gateway,
    pub offset: u64,
}

impl Lister {
    // The lister before the first byte: the gateway that the listing starts with, offset 0.
    pub(crate) fn at_first() -> Self
        ensures { carried result ≡ at_first }
    {
        Lister {
            gateway: first_gateway(),
            offset: 0,
        }
    }
}

// A lister of a line, whose lines have at most LINE_ROOM bytes for each byte.
impl Listener<LINE_ROOM> for Lister {
    ghost lines = { λ m. lines_of next line_of (carried m) };

    ghost leaves = { λ m block after. carried after ≡ carried_after next (carried m) block };

    fn block(&mut self, block: &[u8], text: &mut Text) {
        self.gateway = list(self.gateway, self.offset, block, text);
        self.offset = self.offset.wrapping_add(block.len() as u64);
    }

    ghost none = { λ m. no_lines next line_of (carried m) };

    ghost both = { λ m after xs ys left. lines_of_both next line_of (carried m) (carried after) xs ys left };
}
