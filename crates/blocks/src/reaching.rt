// The next event of a line: its bytes up to and with the first that does something, and what that asks for before a row is looked at.
ghost use Rattle.std.specs.Prelude.{◌≡◌, ◌≤◌, length};
ghost use Rattle.tpck.specs.Frame.{places};
ghost use Rattle.tpck.specs.Scan.{scan, joined};
ghost use Rattle.blocks.specs.Reach.{content_in, without_row, wanted_by, wanted, reach};

use gateway::ByteRefusal;
use tpck::{Control, Event, PLACES};
use trpc::{DeviceMethod, Entry, FrameError, GatewayMethod, Planned};

// What an event asks for, as far as no row decides it: nothing, a refusal, or a reply by a method's entry. A record for a device is
// answered by that device's row. No Result: a refusal is answered as the others are.
#[derive(Clone, Copy)]
pub enum Asked {
    Nothing,
    Refused(ByteRefusal),
    Own(Entry, GatewayMethod),
    Device(Entry, DeviceMethod),
}

// What an event asks for, and the place of the row that decides; 0 where none does.
#[derive(Drop)]
struct Want {
    asked: Asked,
    place: usize,
}

// The receiver after the bytes used, how many they are, what the last of them asks for, and the place of the row that decides.
#[derive(Clone, Copy)]
pub struct Reached {
    pub control: Control,
    pub used: usize,
    pub asked: Asked,
    pub place: usize,
}

// No row decides.
fn without_row(asked: Asked) -> Want
    ensures { result ≡ without_row asked }
{
    Want { asked, place: 0 }
}

// What a planned frame asks for: check 13 is the search for the device's address.
#[tactic(auto, unfolding(crate::specs::Reach::wanted_by))]
fn wanted_by(planned: Result<Planned, FrameError>, addresses: &[u16]) -> Want
    ensures { result ≡ wanted_by planned addresses.now }
{
    match planned {
        Err(e) => without_row(Asked::Refused(ByteRefusal::Rejected(e))),
        Ok(Planned::Own(entry, method)) => without_row(Asked::Own(entry, method)),
        Ok(Planned::Device(entry, method, address)) => {
            match devices::find_address(addresses, address) {
                Some(place) => Want {
                    asked: Asked::Device(entry, method),
                    place,
                },
                None => {
                    without_row(Asked::Refused(ByteRefusal::Rejected(FrameError::UnknownAddress)))
                }
            }
        }
    }
}

// The data of a frame in a body, after Length and Type.
pub(crate) fn content_in(size: u8, body: &[u8]) -> &[u8]
    requires { length body.now ≡ places }
    ensures { result.now ≡ content_in size body.now }
{
    &body[2..usize::from(size) + 2]
}

// What an event asks for; the data of a frame stand in the body.
#[tactic(auto, unfolding(crate::specs::Reach::wanted))]
fn wanted(event: Event, body: &[u8], addresses: &[u16]) -> Want
    requires { length body.now ≡ places }
    ensures { result ≡ wanted event body.now addresses.now }
{
    match event {
        Event::Nothing => without_row(Asked::Nothing),
        Event::Dropped(d, taken) => without_row(Asked::Refused(ByteRefusal::Dropped(d, taken))),
        Event::Frame(ptype, size) => {
            wanted_by(trpc::plan(ptype, content_in(size, body)), addresses)
        }
    }
}

// Takes bytes of a line up to and with the first that does something, or all of them. The body of the line's receiver is lent;
// `addresses` are those of the rows, in their order.
#[tactic(auto, unfolding(crate::specs::Reach::reach))]
pub fn reach(control: Control, body: &mut [u8; PLACES], addresses: &[u16], bytes: &[u8]) -> Reached
    ensures reached { result ≡ reach control body.old addresses.now bytes.now }
    ensures body { body.new ≡ (scan (joined control body.old) bytes.now).next.bytes }
{
    let scanned = tpck::scan(control, &mut *body, bytes);
    let wanted = wanted(scanned.event, &body[..], addresses);
    Reached {
        control: scanned.next,
        used: scanned.used,
        asked: wanted.asked,
        place: wanted.place,
    }
}
