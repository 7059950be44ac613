// The checksum: the sum of bytes modulo 256, by wrapping addition.
ghost use Rattle.std.specs.Prelude.{◌≡◌};
ghost use Rattle.tpck.specs.Frame.{checksum};

// The checksum of bytes.
pub(crate) fn checksum_of(s: &[u8]) -> u8
    ensures { result ≡ checksum s.now }
{
    s.iter().fold(0, |sum, b| sum.wrapping_add(*b))
}
