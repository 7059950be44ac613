// The words that name something: a call, a setting, and a serial line.
ghost use Rattle.std.specs.Prelude.{◌≡◌};
ghost use Rattle.script.specs.Names.{rows, named, call_named, setting_named, line_named, first_call};

use updates::Line;

// The calls by the first word of a line; nothing, a call too, where the line is empty or a comment.
#[derive(Clone, Copy)]
pub enum Call {
    Nothing,
    Gateway,
    Row,
    Byte,
    Tick,
    Turn,
    Head,
    Error,
    Write,
    Dump,
    Date,
    Plant,
    Hand,
    Read,
    Block,
    More,
}

// The settings by the first word of a field.
#[derive(Clone, Copy)]
pub(crate) enum SettingName {
    Mode,
    Cool,
    Slab,
    Fan,
}

// The calls by their words.
const CALLS: [(&[u8], Call); 15] = [
    (b"gateway", Call::Gateway),
    (b"row", Call::Row),
    (b"byte", Call::Byte),
    (b"tick", Call::Tick),
    (b"turn", Call::Turn),
    (b"head", Call::Head),
    (b"error", Call::Error),
    (b"write", Call::Write),
    (b"dump", Call::Dump),
    (b"date", Call::Date),
    (b"plant", Call::Plant),
    (b"hand", Call::Hand),
    (b"read", Call::Read),
    (b"block", Call::Block),
    (b"more", Call::More),
];

// The settings by their words.
const SETTINGS: [(&[u8], SettingName); 4] = [
    (b"mode", SettingName::Mode),
    (b"cool", SettingName::Cool),
    (b"slab", SettingName::Slab),
    (b"fan", SettingName::Fan),
];

// The serial lines by their words.
const LINES: [(&[u8], Line); 2] = [(b"controller", Line::Controller), (b"panel", Line::Panel)];

// What a word names by a table of words; nothing where it stands in none of its rows.
fn named<T: Copy>(table: &[(&[u8], T)], word: &[u8]) -> Option<T>
    ensures { result ≡ named (rows table.now) word.now }
{
    for &(name, value) in table {
        if lists::equal(word, name) {
            return Some(value);
        }
    }
    None
}

// The call that a word names.
fn call_named(word: &[u8]) -> Option<Call>
    ensures { result ≡ call_named word.now }
{
    named(&CALLS, word)
}

// The setting that a word names.
pub(crate) fn setting_named(word: &[u8]) -> Option<SettingName>
    ensures { result ≡ setting_named word.now }
{
    named(&SETTINGS, word)
}

// The serial line that a word names.
pub(crate) fn line_named(word: &[u8]) -> Option<Line>
    ensures { result ≡ line_named word.now }
{
    named(&LINES, word)
}

// The call of a line's first word.
pub(crate) fn first_call(word: &[u8]) -> Option<Call>
    ensures { result ≡ first_call word.now }
{
    if word.is_empty() || word[0] == b'#' {
        return Some(Call::Nothing);
    }
    call_named(word)
}
