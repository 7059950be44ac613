// A byte of a line: the step of its receiver, and the answer to a complete frame.
ghost use Rattle.std.specs.Prelude.{◌≡◌, ◌≤◌, length};
ghost use Rattle.lists.specs.Overlay.{overlay};
ghost use Rattle.gateway.specs.View.{view, put};
ghost use Rattle.gateway.specs.Reply.{room};
ghost use Rattle.gateway.specs.Byte.{byte, admit, reply_at_once, frame};
ghost use Rattle.gateway.specs.Results.{fed};

use crate::admission::Admitted;
use crate::answers::{ByteAnswer, ByteRefusal};
use crate::gateway::Gateway;
use crate::{admission, reply};
use devices::Field;
use tpck::Event;
use trpc::{Entry, Judged, Responded, Subject};
use updates::Line;

// The gateway after a byte.
#[derive(Drop)]
pub struct Fed {
    pub gateway: Gateway,
    pub answer: ByteAnswer,
}

impl Gateway {
    // An update that passed the checks: 15, 16, or queued.
    #[tactic(auto, using(crate::proofs::Bytes::admit_put))]
    fn ask(&mut self, line: Line, field: Field, value: u8) -> ByteAnswer
        ensures gateway { self.new ≡ put self.old (admit (view self.old).queue line field value).effect }
        ensures answer { result ≡ (admit (view self.old).queue line field value).answer }
    {
        let Admitted { queue, answer } = admission::admit(self.queue, line, field, value);
        self.queue = queue;
        answer
    }

    // A record that is answered at once, by the entry and the subject that were found.
    #[tactic(auto, unfolding(crate::specs::Byte::reply_at_once), using(trpc::proofs::Widths::reply_fits, crate::proofs::Replies::sent_length, crate::proofs::Replies::sent_left))]
    fn reply_at_once(
        &mut self,
        content: &[u8],
        entry: Entry,
        subject: Subject,
        buffer: &mut [u8],
    ) -> ByteAnswer
        requires { room ≤ length buffer.old }
        ensures gateway { self.new ≡ put self.old (reply_at_once (view self.old) content.now entry subject).effect }
        ensures answer { result ≡ (reply_at_once (view self.old) content.now entry subject).answer }
        ensures buffer { buffer.new ≡ overlay (reply_at_once (view self.old) content.now entry subject).reply buffer.old }
    {
        let Responded { properties, reply } = trpc::respond(
            content,
            entry,
            subject,
            self.properties,
            self.table,
        );
        self.properties = properties;
        ByteAnswer::Replied(reply::send(reply, buffer))
    }

    // A complete frame, by its judgement.
    #[tactic(auto, unfolding(crate::specs::Byte::frame, crate::specs::Byte::frame_judged, lists::specs::Overlay::overlay))]
    fn frame(&mut self, line: Line, ptype: u8, content: &[u8], buffer: &mut [u8]) -> ByteAnswer
        requires { room ≤ length buffer.old }
        ensures gateway { self.new ≡ put self.old (frame (view self.old) line ptype content.now).effect }
        ensures answer { result ≡ (frame (view self.old) line ptype content.now).answer }
        ensures buffer { buffer.new ≡ overlay (frame (view self.old) line ptype content.now).reply buffer.old }
    {
        match trpc::judge(ptype, content, self.table) {
            Err(e) => ByteAnswer::Refused(ByteRefusal::Rejected(e)),
            Ok(Judged::Asks(field, value)) => self.ask(line, field, value),
            Ok(Judged::Answers(entry, subject)) => {
                self.reply_at_once(content, entry, subject, buffer)
            }
        }
    }

    // A byte of a line: the step of its receiver, and the answer to a complete frame.
    fn take(&mut self, line: Line, b: u8, buffer: &mut [u8]) -> ByteAnswer
        ensures gateway { self.new ≡ put self.old (byte (view self.old) line b (length buffer.old)).effect }
        ensures answer { result ≡ (byte (view self.old) line b (length buffer.old)).answer }
        ensures buffer { buffer.new ≡ overlay (byte (view self.old) line b (length buffer.old)).reply buffer.old }
    {
        if buffer.len() < reply::ROOM {
            return ByteAnswer::Refused(ByteRefusal::Short);
        }
        let received = self.receivers.on(line).receive(b);
        self.receivers = self.receivers.with(line, received.next);
        match received.event {
            Event::Nothing => ByteAnswer::Nothing,
            Event::Dropped(d, taken) => ByteAnswer::Refused(ByteRefusal::Dropped(d, taken)),
            Event::Frame(ptype, size) => {
                let end = usize::from(size) + 2;
                self.frame(line, ptype, &received.next.bytes[2..end], buffer)
            }
        }
    }

    // One byte of a line. The gateway changes in place: one that is handed on by value, or made anew by `..self`, is copied.
    pub fn byte(mut self, line: Line, b: u8, buffer: &mut [u8]) -> Fed
        ensures answer { result ≡ fed self (byte (view self) line b (length buffer.old)) }
        ensures buffer { buffer.new ≡ overlay (byte (view self) line b (length buffer.old)).reply buffer.old }
    {
        let answer = self.take(line, b, buffer);
        Fed {
            gateway: self,
            answer,
        }
    }
}
