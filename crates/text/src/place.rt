// A text in a lent buffer, and bytes as they are put into it.
ghost use Rattle.std.specs.Prelude.{◌≡◌, [], ◌∷◌, take};
ghost use Rattle.text.specs.Place.{Begun, Puts};

// The buffer, and the place after the text so far, where the next one goes. Every place is taken, also one past the buffer's end.
#[derive(Drop)]
pub struct Text<'a> {
    pub out: &'a mut [u8],
    pub at: usize,
}

impl<'a> Text<'a> {
    // No text yet: the next one goes to the front of the buffer.
    pub fn new(out: &'a mut [u8]) -> Text<'a>
        ensures same_buffer { result.out.ghost_name ≡ out.entry.ghost_name }
        ensures front { Begun result out.old }
    {
        Text { out, at: 0 }
    }

    // The text so far.
    pub fn as_bytes(&self) -> &[u8]
        ensures { result.now ≡ take self.now.at self.now.out.now }
    {
        &self.out[..self.at.min(self.out.len())]
    }

    // Puts a byte.
    pub fn put_byte(&mut self, b: u8)
        ensures { Puts (b ∷ []) self.old self.new }
    {
        let at = self.at;
        if at < self.out.len() {
            self.out[at] = b;
            self.at = at + 1;
        }
    }

    // Puts the bytes of `s`.
    pub fn put(&mut self, s: &[u8])
        ensures { Puts s.now self.old self.new }
    {
        for &b in s {
            self.put_byte(b);
        }
    }
}
