// Slices of bytes, compared.
ghost use Rattle.std.specs.Prelude.{◌≡◌};
ghost use Rattle.lists.specs.Equal.{equal};

// Whether two slices have the same bytes. A function beside `==`, since its promise is the definition `equal`.
#[tactic(auto, using(crate::proofs::Equals::pointwise_equal))]
pub fn equal(a: &[u8], b: &[u8]) -> bool
    ensures { result ≡ equal a.now b.now }
{
    a == b
}
