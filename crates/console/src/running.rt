// The loop of a program that listens: it reads a block, and writes its lines before it reads the next.
ghost use Rattle.std.specs.Prelude.{◌<◌, IfSome, OnOk};
ghost use Rattle.std.specs.Io.KnownBytes.{Appends};

use crate::listener::Listener;
use std::io::{self, ErrorKind, Read, Write};
use text::Text;

// Reads blocks of at most BLOCK bytes as they come, hands each to the listener and writes its lines, until the input ends, or a read
// or a write fails.
//
// A proved loop has to end, and nothing says that a line does. So the loop counts its reads, up to a number that no run uses up.
pub fn run<L: Listener<ROOM> + Drop, I: Read, O: Write, const BLOCK: usize, const ROOM: usize>(
    mut listener: L,
    input: &mut I,
    output: &mut O,
    block: &mut [u8; BLOCK],
    room: &mut [[u8; ROOM]; BLOCK],
) -> io::Result<()>
    ensures { OnOk result (0 < BLOCK → IfSome (I.remaining input.old) (λ heard. Appends (O.contents output.old) (O.contents output.new) (L.lines listener heard))) }
{
    let room = room.as_flattened_mut();
    for _ in 0..u64::MAX {
        let n = input.read(&mut block[..])?;
        if n == 0 {
            return Ok(());
        }
        let mut text = Text::new(&mut *room);
        listener.block(&block[..n], &mut text);
        output.write_all(text.as_bytes())?;
    }
    Err(ErrorKind::TimedOut.into())
}
