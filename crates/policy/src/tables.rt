// How the tables of a state are read. Every function takes any slice; a byte past its end reads
// as 0.
ghost use Rattle.std.specs.Prelude.{◌≡◌, ◌<◌, get_or};
ghost use Rattle.policy.specs.Tables.{word, marked, passes_in};

use super::layout;

// The byte at i.
pub fn byte(s: &[u8], i: usize) -> u8
    ensures { result ≡ get_or s.now i 0 }
{
    if i < s.len() { s[i] } else { 0 }
}

// The number in two bytes, the lower first.
pub fn word(s: &[u8], at: u16) -> u64
    ensures { (result ≡ word s.now at) × (result < 65536) }
{
    let i = at as usize;
    number::two(byte(s, i), byte(s, i + 1))
}

// Whether label a dominates label b.
#[tactic(auto, using(search::proofs::Truth::one_of))]
pub fn dominates(s: &[u8], a: u64, b: u64) -> bool
    ensures { result ≡ marked s.now a b }
{
    if !search::among(layout::LABELS as u64, a) {
        return false;
    }
    if !search::among(layout::LABELS as u64, b) {
        return false;
    }
    let i = layout::LABELS * (a as usize - 1) + (b as usize - 1);
    byte(s, layout::DOMINANCE_AT + i) == layout::MARK
}

// Whether label a dominates label b, one of which is a level: a free level always passes. The level is
// the byte that a state keeps.
pub fn passes(s: &[u8], level: u64, a: u64, b: u64) -> bool
    ensures { result ≡ passes_in s.now level a b }
{
    if level == layout::FREE as u64 {
        return true;
    }
    dominates(s, a, b)
}
