// Bytes for the long calls: those kept at the front of a lent store, and those of a line behind them.
ghost use Rattle.std.specs.Prelude.{◌≡◌, length};
ghost use Rattle.script.specs.Place.{place};
ghost use Rattle.interpreter.specs.Keeping.{held, Gathers, gathering};

use crate::buffers::LONGEST;
use crate::result::BadLine;
use script::Cursor;
use text::take;

// A lent store, and how many bytes at its front are kept; a number over its length counts as that length.
#[derive(Drop)]
pub struct Kept<'a> {
    pub store: &'a mut [u8],
    pub count: usize,
}

impl Kept<'_> {
    // The bytes kept.
    pub(crate) fn bytes(&self) -> &[u8]
        ensures { result.now ≡ held self.now }
    {
        take(self.store, self.count)
    }

    // Makes the number that of the bytes kept.
    pub(crate) fn trim(&mut self)
        ensures store { self.new.store ≡ self.old.store }
        ensures count { self.new.count ≡ length (held self.old) }
    {
        self.count = self.bytes().len();
    }

    // Keeps the bytes that a line lists too, behind those kept; none of them where a word is bad or they are more than the store has
    // room for.
    pub(crate) fn gather(&mut self, words: Cursor) -> Result<(), BadLine>
        ensures { Gathers (gathering (length self.old.store.now) (held self.old) words.entry.line.now (place words.entry)) self.old self.new result }
    {
        self.trim();
        let mut bytes = [0; LONGEST];
        let Ok(count) = words.read_bytes(&mut bytes) else {
            return Err(BadLine);
        };
        let listed = take(&bytes, count);
        let at = self.count;
        let store = &mut *self.store;
        if store.len() - at < listed.len() {
            return Err(BadLine);
        }
        store[at..at + listed.len()].copy_from_slice(listed);
        self.count = at + listed.len();
        Ok(())
    }
}
