// Every call of the gateway once, with the promise that it is the theorem's step `run`: what the gateway's own function hands back,
// and the lent buffer after the call, read as an answer; and the block call, with the promise that it is the theorem's act.
//
// No program calls these functions. Their proofs tie the theorem to the code: where a promise of the gateway and `run` say
// different things, the function here is not proved.
ghost use Rattle.std.specs.Prelude.{◌≡◌, length};
ghost use Rattle.blocks.specs.Block.{block};
ghost use Rattle.blocks.specs.Cutting.{area_after};
ghost use Rattle.ledger.specs.Call.{start, run, add_ran, byte_ran, tick_ran, turn_ran, head_ran, hand_ran, set_ran};
ghost use Rattle.ledger.specs.Call.OtherCall.{ReadHead, SetNetworkError, CheckDate, Hand};
ghost use Rattle.ledger.specs.Call.Call.{AddRow, Byte, Tick, Turn, Other};
ghost use Rattle.ledger.specs.Blocks.{after_act};
ghost use Rattle.ledger.specs.Blocks.Act.{Block};
ghost use Rattle.ledger.specs.Start.{gateway_of};
ghost use Rattle.ledger.specs.Start.Start.{read};

use blocks::Blocked;
use devices::{Field, Row};
use gateway::{Added, Fed, Gateway, HeadRefusal, Ticked, Turned, Waiting};
use transfer::{HandRefusal, Handover};
use updates::Line;

// The gateway with which a list of calls starts.
fn fresh(firmware: u16, protocol: u16) -> Gateway
    ensures { result ≡ start firmware protocol }
{
    Gateway::fresh(firmware, protocol)
}

// The gateway read with which a list of calls may start.
fn read(firmware: u16, protocol: u16, count: usize, bytes: &[u8]) -> Handover
    ensures { result.gateway ≡ gateway_of (read firmware protocol count bytes.now) }
{
    transfer::read(firmware, protocol, count, bytes)
}

// Adds a row.
#[tactic(auto, unfolding(crate::specs::Call::run))]
fn add(gateway: Gateway, row: Row) -> Added
    ensures { add_ran result ≡ run gateway (AddRow row) }
{
    gateway.add(row)
}

// Takes a byte of a line.
#[tactic(auto, unfolding(crate::specs::Call::run))]
fn byte(gateway: Gateway, line: Line, b: u8, buffer: &mut [u8]) -> Fed
    ensures { byte_ran result buffer.new ≡ run gateway (Byte line b buffer.old) }
{
    gateway.byte(line, b, buffer)
}

// Takes a block of a line: the gateway is the one after the act, and what is handed back and left in the area is what `BlockRight`
// speaks of.
fn block(gateway: Gateway, line: Line, bytes: &[u8], area: &mut [u8]) -> Blocked
    ensures after { result.gateway ≡ after_act gateway (Block line bytes.now area.old) }
    ensures blocked { result ≡ block gateway line bytes.now (length area.old) }
    ensures area { area.new ≡ area_after gateway line bytes.now area.old }
{
    blocks::block(gateway, line, bytes, area)
}

// Lets a second pass.
#[tactic(auto, unfolding(crate::specs::Call::run))]
fn tick(gateway: Gateway) -> Ticked
    ensures { tick_ran result ≡ run gateway Tick }
{
    gateway.tick()
}

// Takes a turn.
#[tactic(auto, unfolding(crate::specs::Call::run))]
fn turn(gateway: Gateway, field: Field, heard: Option<u8>, buffer: &mut [u8]) -> Turned
    ensures { turn_ran result buffer.new ≡ run gateway (Turn field heard buffer.old) }
{
    gateway.turn(field, heard, buffer)
}

// Reads the head.
#[tactic(auto, unfolding(crate::specs::Call::run, crate::specs::Call::run_other))]
fn head(gateway: Gateway) -> Result<Waiting, HeadRefusal>
    ensures { head_ran gateway result ≡ run gateway (Other ReadHead) }
{
    gateway.head()
}

// Sets the network error.
#[tactic(auto, unfolding(crate::specs::Call::run, crate::specs::Call::run_other))]
fn set_network_error(gateway: Gateway, error: u16) -> Gateway
    ensures { set_ran result ≡ run gateway (Other (SetNetworkError error)) }
{
    gateway.set_network_error(error)
}

// Checks the stored date.
#[tactic(auto, unfolding(crate::specs::Call::run, crate::specs::Call::run_other))]
fn check_date(gateway: Gateway) -> Gateway
    ensures { set_ran result ≡ run gateway (Other CheckDate) }
{
    gateway.check_date()
}

// Writes a frame of the hand-over.
#[tactic(auto, unfolding(crate::specs::Call::run, crate::specs::Call::run_other))]
fn hand(gateway: Gateway, place: usize, buffer: &mut [u8]) -> Result<usize, HandRefusal>
    ensures { hand_ran gateway result buffer.new ≡ run gateway (Other (Hand place buffer.old)) }
{
    transfer::hand(gateway, place, buffer)
}
