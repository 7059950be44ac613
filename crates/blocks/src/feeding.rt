// The block call: a line's bytes one event after another, each reply directly behind the one before.
ghost use Rattle.std.specs.Prelude.{◌≡◌, ◌≤◌, ◌<◌, length};
ghost use Rattle.lists.specs.Overlay.{overlay};
ghost use Rattle.gateway.specs.Reply.{room};
ghost use Rattle.blocks.specs.Feed.{reply_length, feed};
ghost use Rattle.blocks.specs.Block.{most_used, refused, blocked_by, feed_of, block};

use crate::answering::answer;
use crate::answers::{BlockRefusal, Blocked, Used};
use crate::counts::Counts;
use crate::parts::{Moving, body_of};
use crate::reaching::reach;
use gateway::{ByteAnswer, Gateway};
use updates::Line;

// The bytes that are left of a reply area at least, before a byte is used.
const ROOM: usize = 32;

// The most bytes of a block that are used.
const MOST_USED: usize = 4096;

// The length of the reply that an answer tells; 0 where there is none.
fn reply_length(answer: ByteAnswer) -> usize
    ensures { result ≡ reply_length answer }
{
    match answer {
        ByteAnswer::Replied(n) => n,
        _ => 0,
    }
}

// Works through some bytes, at most 4,096 and one at least, as long as 32 bytes of the area are left: the rest of the area, from the
// place after the last reply, is lent on to the frame writer.
fn feed(gateway: Gateway, line: Line, bytes: &[u8], area: &mut [u8]) -> Blocked
    requires { (room ≤ length area.old) × (0 < length bytes.now) × (length bytes.now ≤ most_used) }
    ensures blocked { result ≡ blocked_by (feed gateway line (length area.old) bytes.now) }
    ensures area { area.new ≡ overlay (feed gateway line (length area.old) bytes.now).replies area.old }
{
    let addresses = gateway.table.addresses();
    let listed = &addresses[..gateway.table.used()];
    let space = area.len();
    let mut body = body_of(gateway, line);
    let mut moving = Moving::of(gateway, line);
    let mut counts = Counts::none();
    let mut used: usize = 0;
    let mut written: usize = 0;
    // A while and no for: each turn goes on by as many bytes as an event takes.
    while used < bytes.len() && ROOM <= space - written {
        let reached = reach(moving.control, &mut body, listed, &bytes[used..]);
        let row = gateway.table.rows[reached.place];
        let answered = answer(moving, line, reached, row, &body, &mut area[written..]);
        moving = answered.moving;
        used += reached.used;
        written += reply_length(answered.answer);
        counts.add(answered.answer);
    }
    Blocked {
        gateway: moving.into(gateway, line, body),
        answer: Ok(Used {
            bytes: used,
            written,
        }),
        counts,
    }
}

// A block of a line, with an area for its replies: stops at the block's end, at 4,096 bytes, or when fewer than 32 bytes of the area
// are left. An area under 32 bytes is refused, also for an empty block.
pub fn block(gateway: Gateway, line: Line, bytes: &[u8], area: &mut [u8]) -> Blocked
    ensures blocked { result ≡ block gateway line bytes.now (length area.old) }
    ensures area { area.new ≡ overlay (feed_of gateway line bytes.now (length area.old)).replies area.old }
{
    if area.len() < ROOM {
        return Blocked {
            gateway,
            answer: Err(BlockRefusal::Short),
            counts: Counts::none(),
        };
    }
    let end = bytes.len().min(MOST_USED);
    if end == 0 {
        return Blocked {
            gateway,
            answer: Ok(Used {
                bytes: 0,
                written: 0,
            }),
            counts: Counts::none(),
        };
    }
    feed(gateway, line, &bytes[..end], area)
}
