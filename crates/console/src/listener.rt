// What hears the bytes of a line, block by block, and tells lines about them.
ghost use Rattle.std.specs.Prelude.{◌≡◌, ℕ, ◌*◌, ◌≤◌, List, [], ◌++◌, length};
ghost use Rattle.text.specs.Place.{Puts};

use text::Text;

// The lines of a byte have at most ROOM bytes.
pub trait Listener<const ROOM: usize> {
    // The lines of some bytes.
    ghost lines: { Self → List ℕ → List ℕ };

    // What some bytes leave.
    ghost leaves: { Self → List ℕ → Self → Type 0 };

    // Takes the bytes of a block, and puts all their lines.
    fn block(&mut self, block: &[u8], text: &mut Text)
        ensures after { leaves self.old block.now self.new }
        ensures lines { Puts (lines self.old block.now) text.old text.new }
        ensures short { length (lines self.old block.now) ≤ length block.now * ROOM };

    // No bytes have no lines.
    ghost none: { (s : Self) → lines s [] ≡ [] };

    // Two parts have the lines of both, so an input has the same lines however it is cut into blocks.
    ghost both: { (s t : Self) (xs ys : List ℕ) → leaves s xs t → lines s (xs ++ ys) ≡ lines s xs ++ lines t ys };
}
