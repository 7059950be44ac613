// Looks into a hand-over: reads one from standard input and prints what it carries, or why it is refused.
//
// The input is the number of rows, one byte, and after it the frames, one behind the other: the file that a host writes. What is
// accepted is printed as `replay` prints it for `dump`, the properties and then a line for each row:
//
//     settings ERROR REPORTING FIRMWARE PROTOCOL YEAR MONTH DAY WEEKDAY HOUR MINUTE
//     row ADDRESS VERSION MASK MODE STATE EVENTS C0..C6 S0..S6 F0..F6
//
// What is refused is one line, as the listing has it:
//
//     OFFSET refused N
//
// OFFSET is that of the byte of the input that caused it, the number of bytes where they end early. At most 65,536 bytes are read; the
// 837 frames of 32 rows have at most 32 bytes each. A read that fails ends the input.
#![tactic(auto)]

mod told;

use std::io::{Read, Stdin, Write};
use told::MOST_TOLD;

// The most bytes of the input that are read.
const MOST_READ: usize = 65536;

// Reads the input to the front of the buffer, until it ends or the buffer is full, and gives the number of its bytes. The library's own
// ways to read all of an input want a heap, or the exact number of bytes, so the loop counts by hand.
fn gather(input: &mut Stdin, buffer: &mut [u8; MOST_READ]) -> usize {
    let mut n = 0;
    while n < MOST_READ {
        match input.read(&mut buffer[n..]) {
            Ok(0) | Err(_) => break,
            Ok(more) => n += more,
        }
    }
    n
}

// Reads the input whole, then prints.
fn main(rt: HostRuntime) {
    let mut input = [0; MOST_READ];
    let mut out = [0; MOST_TOLD];
    let n = gather(&mut rt.stdin(), &mut input);
    let len = told::tell(text::take(&input, n), &mut out);
    let _ = rt.stdout().write_all(text::take(&out, len));
}
