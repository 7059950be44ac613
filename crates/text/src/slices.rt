// The front of a slice, and the place of a byte in it.
ghost use Rattle.std.specs.Prelude.{◌≡◌, take};
ghost use Rattle.text.specs.Slices.{place_of};

// The first `n` elements, or all where there are fewer.
pub fn take<T>(list: &[T], n: usize) -> &[T]
    ensures { result.now ≡ take n list.now }
{
    &list[..n.min(list.len())]
}

// The first place from `at` on that holds `b`; the end where there is none.
pub fn place_of(b: u8, s: &[u8], at: usize) -> usize
    ensures { result ≡ place_of b s.now at }
{
    for i in at..s.len() {
        if s[i] == b {
            return i;
        }
    }
    s.len()
}
