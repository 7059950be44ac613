// What the monitor keeps from block to block, and what a block does to it.
ghost use Rattle.std.specs.Prelude.{◌≡◌};
ghost use Rattle.text.specs.Report.{carried_after, lines_of};
ghost use Rattle.text.proofs.Reports.{no_lines, lines_of_both};
ghost use Rattle.frames.specs.Report.{next, line_of};
ghost use Rattle.frames.specs.Monitor.{carried, at_first};

use crate::line::event_line;
use console::Listener;
use text::Text;
use tpck::Receiver;

// Room for the line of one byte.
pub(crate) const LINE_ROOM: usize = 1024;

// The receiver of the line, and the offset of the next byte.
#[derive(Drop)]
pub struct Monitor {
    pub receiver: Receiver,
    pub offset: u64,
}

impl Monitor {
    // The monitor before the first byte: a fresh receiver, offset 0.
    pub(crate) fn at_first() -> Self
        ensures { carried result ≡ at_first }
    {
        Monitor {
            receiver: Receiver::fresh(),
            offset: 0,
        }
    }
}

// A monitor of a line, whose lines have at most LINE_ROOM bytes for each byte.
impl Listener<LINE_ROOM> for Monitor {
    ghost lines = { λ m. lines_of next line_of (carried m) };

    ghost leaves = { λ m block after. carried after ≡ carried_after next (carried m) block };

    fn block(&mut self, block: &[u8], text: &mut Text) {
        // A local, moved before its bytes are read: through `self`, or read first, it is copied more often.
        let mut receiver = self.receiver;
        for (i, &b) in block.iter().enumerate() {
            let received = receiver.receive(b);
            receiver = received.next;
            let offset = self.offset.wrapping_add(i as u64);
            event_line(text, offset, received.event, &receiver.bytes);
        }
        self.receiver = receiver;
        self.offset = self.offset.wrapping_add(block.len() as u64);
    }

    ghost none = { λ m. no_lines next line_of (carried m) };

    ghost both = { λ m after xs ys left. lines_of_both next line_of (carried m) (carried after) xs ys left };
}
