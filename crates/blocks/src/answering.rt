// The answer to an event, by the row that decides: 14 and steps 1 and 2, then 15, 16, queued, or a reply.
ghost use Rattle.std.specs.Prelude.{◌≡◌};
ghost use Rattle.gateway.specs.Reply.{sent_buffer};
ghost use Rattle.trpc.specs.Planning.{judge_row};
ghost use Rattle.blocks.specs.Answer.{settle, sending, row_outcome, ruled, area_left, outcome_of, answer};

use crate::parts::Moving;
use crate::reaching::{Asked, Reached, content_in};
use devices::{Field, Row};
use gateway::{ByteAnswer, ByteRefusal};
use tpck::PLACES;
use trpc::{DeviceMethod, Entry, Responded, RowJudged};
use updates::Line;

// The parts after an event, and its answer.
#[derive(Drop)]
pub struct Answered {
    pub moving: Moving,
    pub answer: ByteAnswer,
}

// An update that is asked for: 15, 16, or queued.
fn settle(mut moving: Moving, line: Line, field: Field, value: u8) -> Answered
    ensures { result ≡ settle moving line field value }
{
    let admitted = gateway::admit(moving.queue, line, field, value);
    moving.queue = admitted.queue;
    Answered {
        moving,
        answer: admitted.answer,
    }
}

// A reply at once, written to the front of the area.
fn sending(mut moving: Moving, responded: Responded, area: &mut [u8]) -> Answered
    ensures answered { result ≡ sending moving responded area.old }
    ensures area { area.new ≡ sent_buffer responded.reply area.old }
{
    let n = gateway::send(responded.reply, area);
    moving.properties = responded.properties;
    Answered {
        moving,
        answer: ByteAnswer::Replied(n),
    }
}

// A record for a device, by its row.
#[tactic(auto, unfolding(crate::specs::Answer::row_outcome))]
fn by_row(
    moving: Moving,
    line: Line,
    entry: Entry,
    method: DeviceMethod,
    row: Row,
    content: &[u8],
    area: &mut [u8],
) -> Answered
    ensures answered { result ≡ ruled (row_outcome (judge_row row method content.now) entry method row content.now moving.properties) moving line area.old }
    ensures area { area.new ≡ area_left (row_outcome (judge_row row method content.now) entry method row content.now moving.properties) area.old }
{
    match trpc::judge_row(row, method, content) {
        Err(e) => Answered {
            moving,
            answer: ByteAnswer::Refused(ByteRefusal::Rejected(e)),
        },
        Ok(RowJudged::Asks(field, value)) => settle(moving, line, field, value),
        Ok(RowJudged::Answers) => {
            let responded = trpc::respond_device(content, entry, method, moving.properties, row);
            sending(moving, responded, area)
        }
    }
}

// The answer to the event that was reached, by the row at its place. The data of a frame stand in the body; a reply goes to the front
// of the area.
#[tactic(auto, unfolding(crate::specs::Answer::answer, crate::specs::Answer::outcome))]
pub fn answer(
    mut moving: Moving,
    line: Line,
    reached: Reached,
    row: Row,
    body: &[u8; PLACES],
    area: &mut [u8],
) -> Answered
    ensures answered { result ≡ answer moving line reached row body.now area.old }
    ensures area { area.new ≡ area_left (outcome_of reached row body.now moving.properties) area.old }
{
    let content = content_in(body[0], &body[..]);
    moving.control = reached.control;
    match reached.asked {
        Asked::Nothing => Answered {
            moving,
            answer: ByteAnswer::Nothing,
        },
        Asked::Refused(why) => Answered {
            moving,
            answer: ByteAnswer::Refused(why),
        },
        Asked::Own(entry, method) => {
            let responded = trpc::respond_gateway(content, entry, method, moving.properties);
            sending(moving, responded, area)
        }
        Asked::Device(entry, method) => by_row(moving, line, entry, method, row, content, area),
    }
}
