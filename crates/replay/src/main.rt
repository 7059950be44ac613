// Replays a script of calls on a gateway, a line each, and prints what each answers. docs/REPLAY.md has the lines and the answers.
//
// Memory is constant: the input is read in blocks of at most 64 KiB as they come, a line of at most 4,096 bytes and at most 32,768
// bytes for a long call are kept, and the answers to each line are written before the next line is run. What is printed does not
// depend on how the input is cut into blocks. A read that fails ends the program as the end of the input does; so does a write that
// fails.
#![tactic(auto)]

mod progress;

ghost use Rattle.std.specs.Prelude.{◌≡◌, ◌≤◌, length, OnOk};
ghost use Rattle.replay.specs.Progress.{block_size, line_room, Rooms, view, after_bytes};

use interpreter::{LONGEST, MOST_KEPT};
use progress::Progress;
use std::io::{Error, Read, Stdout, Write};
use text::{Text, take};

// The most bytes of a block of the input.
const BLOCK: usize = 65536;

// A buffer for a block.
fn block_buffer() -> [u8; BLOCK]
    ensures { block_size ≡ length result }
{
    [0; BLOCK]
}

// Room for the text of every line. The steps ask for it in a clause and not by a type, since a `Text` may be of any buffer.
const LINE_ROOM: usize = 655360;

// A buffer with that room.
fn text_buffer() -> [u8; LINE_ROOM]
    ensures { line_room ≡ length result }
{
    [0; LINE_ROOM]
}

// Takes the progress over a block, step by step, and writes what each step prints.
fn run_block(
    output: &mut Stdout,
    progress: &mut Progress,
    block: &[u8],
    out: &mut [u8],
) -> Result<(), Error>
    requires rooms { Rooms progress.old }
    requires room { line_room ≤ length out.old }
    ensures state { OnOk result (view progress.new ≡ after_bytes (view progress.old) block.now) }
    ensures rooms { Rooms progress.new }
{
    let mut rest = block;
    while !rest.is_empty() {
        let mut text = Text::new(&mut *out);
        let used = progress.part(rest, &mut text);
        output.write_all(text.as_bytes())?;
        rest = &rest[used..];
    }
    Ok(())
}

// Reads a block, takes the progress over it, and so on; at the end of the input writes what is printed there.
//
// A proved loop has to end, and nothing says that the input does. So the loop counts its reads, up to a number that no run
// uses up.
fn main(rt: HostRuntime) {
    let mut input = rt.stdin();
    let mut output = rt.stdout();
    let mut block = block_buffer();
    let mut line = [0; LONGEST];
    let mut store = [0; MOST_KEPT];
    let mut out = text_buffer();
    let mut progress = Progress::at_first(&mut line, &mut store);
    for _ in 0..u64::MAX {
        let n = input.read(&mut block).unwrap_or(0);
        if n == 0 {
            let mut text = Text::new(&mut out);
            progress.last(&mut text);
            let _ = output.write_all(text.as_bytes());
            return;
        }
        if run_block(&mut output, &mut progress, take(&block, n), &mut out).is_err() {
            return;
        }
    }
}
