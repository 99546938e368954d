// How two things of an order compare: four outcomes, and a test of them.
ghost use Rattle.std.specs.Prelude.{◌≡◌};
ghost use Rattle.order.specs.Comparison.{by_marks, at_least};

// How a thing compares with another: it is the same, over it or under it, or neither is over the other.
#[derive(Clone, Copy, PartialEq, Eq, Debug)]
pub enum Comparison {
    Equal,
    Above,
    Below,
    Neither,
}

// By two marks: whether the first thing is over the second or is it, and whether the second is over
// the first or is it.
pub fn by_marks(over: bool, under: bool) -> Comparison
    ensures { result ≡ by_marks over under }
{
    match (over, under) {
        (true, true) => Comparison::Equal,
        (true, false) => Comparison::Above,
        (false, true) => Comparison::Below,
        (false, false) => Comparison::Neither,
    }
}

// Equal or above.
pub fn at_least(c: Comparison) -> bool
    ensures { result ≡ at_least c }
{
    matches!(c, Comparison::Equal | Comparison::Above)
}
