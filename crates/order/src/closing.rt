// Closing a relation by rounds, whatever table keeps it: what `marks` and `rows` have in common.
ghost use Rattle.std.specs.Prelude.{◌≡◌, ◌+◌, ◌≤◌, ◌<◌, ℕ, min};
ghost use Rattle.search.specs.Search.{thing};
ghost use Rattle.order.specs.Closure.{Relation, path, loop, round, with_itself};

// A table of a relation among the things 1 to `ROOM`.
pub trait Closing {
    ghost ROOM: { ℕ };

    const ROOM: usize;

    ghost relates: { Self → Relation };

    // The second table relates the first n things as told, and is else as the first.
    ghost becomes: { ℕ → Relation → Self → Self → Type 0 };

    // The second relates thing i + 1 to itself, and is else as the first.
    ghost links: { ℕ → Self → Self → Type 0 };

    // Whether thing i + 1 is related to itself.
    fn loops(&self, i: usize) -> bool
        requires { i < ROOM }
        ensures { result ≡ relates self.now (i + 1) (i + 1) };

    // Relates thing i + 1 to itself.
    fn link(&mut self, i: usize)
        requires { i < ROOM }
        ensures { links i self.old self.new };

    // One round of closing: in the first n rows, the paths past thing k + 1 too.
    fn pass(&mut self, k: usize, n: usize)
        requires { (k < n) × (n ≤ ROOM) }
        ensures { becomes n (round (relates self.old) (k + 1)) self.old self.new };

    ghost before_rounds: { (n : ℕ) (t : Self) → becomes n (relates t) t t };

    ghost after_round: { (n k : ℕ) (h : Relation) (t u v : Self) → k < n → n ≤ ROOM → becomes n h t u
        → becomes n (round (relates u) (k + 1)) u v → becomes n (round h (k + 1)) t v };

    ghost before_links: { (t : Self) → becomes 0 (with_itself (relates t)) t t };

    ghost after_link: { (i : ℕ) (t u v : Self) → i < ROOM → becomes i (with_itself (relates t)) t u → links i u v
        → becomes (i + 1) (with_itself (relates t)) t v };
}

// Leaves the paths of one step or more among the first n things.
pub fn paths<T: Closing>(t: &mut T, n: usize)
    ensures { T.becomes (min n T.ROOM) (path (min n T.ROOM) (T.relates t.old)) t.old t.new }
{
    let m = n.min(T::ROOM);
    for k in 0..m {
        t.pass(k, m);
    }
}

// Relates each of the first n things to itself: of paths, this makes the closure.
pub fn reflect<T: Closing>(t: &mut T, n: usize)
    ensures { T.becomes (min n T.ROOM) (with_itself (T.relates t.old)) t.old t.new }
{
    for i in 0..n.min(T::ROOM) {
        t.link(i);
    }
}

// The lowest of the first n things that is related to itself: of paths, the lowest on a circle.
pub fn lowest_loop<T: Closing>(t: &T, n: usize) -> Option<usize>
    ensures { result ≡ thing (loop (min n T.ROOM) (T.relates t.now)) }
{
    for i in 0..n.min(T::ROOM) {
        if t.loops(i) {
            return Some(i + 1);
        }
    }
    None
}
