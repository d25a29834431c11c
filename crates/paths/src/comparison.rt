// Lists compared word by word.
ghost use Rattle.std.specs.Prelude.{◌≡◌};
ghost use Rattle.merkle.specs.Lists.{same};

// Whether two lists are the same, their lengths too.
pub fn same_words(a: &[u64], b: &[u64]) -> bool
    ensures { result ≡ same a.now b.now }
{
    a == b
}
