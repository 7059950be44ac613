// A packet monitor for line engineers: raw bytes of a tHA line on standard input, a line of text for each frame and each dropped
// packet on standard output.
//
//     OFFSET frame TYPE LENGTH DATA      a complete frame, each data byte as a space and two hexadecimal digits
//     OFFSET drop N BODY                 a dropped packet, by document 01's number, and how many body bytes it had taken since its SOF
//
// OFFSET counts the bytes from 0 and is that of the byte that caused the line. Memory is constant. The input is read in blocks of
// at most 256 bytes as they come, and all lines of a block are written before the next is read, so that the monitor of a slow line
// is never late. A read that fails ends the program as the end of the input does; so does a write that fails.
//
// Offsets are counted modulo 2^64, so they are right for an input of up to 2^64 bytes: some 600 million years of a line at 9,600 baud.
#![tactic(auto)]

mod line;
mod monitor;

ghost use Rattle.std.specs.Prelude.{◌≡◌, length, replicate};
ghost use Rattle.frames.specs.Lines.{line_room, block_size};

use monitor::{LINE_ROOM, Monitor};

// The most bytes of a block of the input.
const BLOCK: usize = 256;

// A buffer for a block of the input.
fn block_buffer() -> [u8; BLOCK]
    ensures { block_size ≡ length result }
{
    [0; BLOCK]
}

// Room for the lines of a block: a row for each of its bytes.
fn lines_buffer() -> [[u8; LINE_ROOM]; BLOCK]
    ensures { result ≡ replicate block_size (replicate line_room 0) }
{
    [[0; LINE_ROOM]; BLOCK]
}

// Listens with a buffer for a block, and room for the line of each of its bytes.
fn main(rt: HostRuntime) {
    let mut block = block_buffer();
    let mut room = lines_buffer();
    let _ = console::run(
        Monitor::at_first(),
        &mut rt.stdin(),
        &mut rt.stdout(),
        &mut block,
        &mut room,
    );
}
