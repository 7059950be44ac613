// Numbers after a word, a space before each.
ghost use Rattle.std.specs.Prelude.{◌≡◌, ℕ};
ghost use Rattle.text.specs.Place.{Puts};
ghost use Rattle.text.specs.Texts.{texts};
ghost use Rattle.transcript.specs.Fields.{number_text};
ghost use Rattle.transcript.specs.Answers.{last_text};

use text::Text;

// Puts a space and a number.
pub(crate) fn put_number(text: &mut Text, n: u64)
    ensures { Puts (number_text n) text.old text.new }
{
    text.put_byte(b' ');
    text.put_decimal(n);
}

// Puts a number and the end of the line.
pub(crate) fn put_last(text: &mut Text, n: u64)
    ensures { Puts (last_text n) text.old text.new }
{
    put_number(text, n);
    text.put_byte(b'\n');
}

// Puts each number of a list.
pub(crate) fn put_numbers<T: Copy + Into<u64>>(text: &mut Text, list: &[T])
    ensures { (number : T → ℕ) → ((n : T) (m : ℕ) → T.converts n m → m ≡ number n)
        → Puts (texts (λ n. number_text (number n)) list.now) text.old text.new }
{
    for &n in list {
        put_number(text, n.into());
    }
}
