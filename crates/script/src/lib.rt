// Reading a line of a script of calls on a gateway. docs/REPLAY.md has the lines.
//
// A line is read word by word: a cursor goes from word to word, and one that met a bad word stays bad, so that a line is judged
// once, at its end. Every line, cursor and place is taken, also a place past the line's end, where no word is left.
#![tactic(auto)]

mod arguments;
mod cursor;
mod names;
mod numbers;
mod words;

pub use cursor::Cursor;
pub use names::Call;
