// The things 1 to n: the test whether a number is one of them, and definitions and laws of searches
// among them. Each crate above searches its own table, against these.
#![tactic(auto)]

ghost use Rattle.std.specs.Prelude.{◌≡◌};
ghost use Rattle.search.specs.Search.{among};

// Whether x is one of the things 1 to n.
pub fn among(n: u64, x: u64) -> bool
    ensures { result ≡ among n x }
{
    (1..=n).contains(&x)
}
