// The words of a line: runs of bytes between spaces. No other byte parts words.
ghost use Rattle.std.specs.Prelude.{◌≡◌};
ghost use Rattle.script.specs.Words.{word_start, next_word, InLine};

// A word of a line: the place of its first byte, and the place after its last. They are the same where there is no word.
#[derive(Drop)]
pub(crate) struct Word {
    pub start: usize,
    pub end: usize,
}

// The first place from `at` on that holds no space; the line's end where there is none.
fn word_start(line: &[u8], at: usize) -> usize
    ensures { result ≡ word_start line.now at }
{
    for i in at..line.len() {
        if line[i] != b' ' {
            return i;
        }
    }
    line.len()
}

// The first word from `at` on.
pub(crate) fn next_word(line: &[u8], at: usize) -> Word
    ensures word { result ≡ next_word line.now at }
    ensures in_line { InLine line.now at result }
{
    let start = word_start(line, at);
    let end = text::place_of(b' ', line, start);
    Word { start, end }
}
