// A reply, framed, at the front of a lent buffer.
ghost use Rattle.std.specs.Prelude.{◌≡◌};
ghost use Rattle.gateway.specs.Reply.{sent, sent_buffer};

use trpc::Reply;

// The bytes that a reply buffer has at least.
pub(crate) const ROOM: usize = 32;

// The places of a reply's data.
const DATA_PLACES: usize = 12;

// Writes the frame of a reply's data and hands back its length. A caller may hand over any reply: a length over the places counts as
// the places. A buffer that is too short for the frame is left as it is, and the length is 0; every reply of ours fits 32 bytes (`fits`).
pub fn send(reply: Reply, buffer: &mut [u8]) -> usize
    ensures answer { result ≡ sent reply buffer.old }
    ensures buffer { buffer.new ≡ sent_buffer reply buffer.old }
{
    let len = reply.len.min(DATA_PLACES);
    tpck::write(trpc::RECORD_TYPE, &reply.bytes[..len], buffer).unwrap_or(0)
}
