// The numbers 1 to 5: the file's length, and line by line its form, its numbers and its order.
ghost use Rattle.std.specs.Prelude.{◌≡◌, ◌≤◌};
ghost use Rattle.rolefile.specs.Line.{lines};
ghost use Rattle.rolefile.specs.Form.{refusal, within_limits, first_limit, second_limit, ranged, rises, head_verdict, body_verdict, line_verdict, scan, lines_verdict};
ghost use Rattle.rolefile.specs.Refusal.{verdict_of, told};

use super::{Line, Refusal, Verdict, read, reader};

// 1: a file's length at most.
const LENGTH_LIMIT: usize = 63800;

// 3: the counts at most.
const LABEL_LIMIT: u64 = 32;

const ROLE_LIMIT: u64 = 128;

const USER_LIMIT: u64 = 256;

const CARD_LIMIT: u64 = 512;

// 4: the highest mode.
const MODE_LIMIT: u64 = 2;

// The verdict of a number and its place, as `verdict` and C have it.
pub fn refused(number: u64, first: u64, second: u64) -> Verdict
    ensures { result ≡ refusal number first second }
{
    Verdict {
        number,
        first,
        second,
    }
}

// 3: whether the counts are within their limits.
pub fn counts_fit(labels: u64, roles: u64, users: u64, cards: u64) -> bool
    ensures { result ≡ within_limits labels roles users cards }
{
    search::among(LABEL_LIMIT, labels)
        & ((roles <= ROLE_LIMIT) & ((users <= USER_LIMIT) & (cards <= CARD_LIMIT)))
}

// 4: the counts that the first and the second field of the letter k's lines go up to, under the
// counts h.
#[tactic(auto, unfolding(crate::specs::Form::first_limit, crate::specs::Form::second_limit))]
fn limits_of(h: Line, k: u64) -> (u64, u64)
    ensures { (result.0 ≡ first_limit h k) × (result.1 ≡ second_limit h k) }
{
    match k {
        read::D => (h.a, h.a),
        read::S => (h.b, h.b),
        read::O => (h.d, h.a),
        read::P => (h.b, h.d),
        read::A => (h.c, h.b),
        _ => (h.c, h.a),
    }
}

// 4: the numbers of a line are within their limits.
#[tactic(auto, unfolding(crate::specs::Form::ranged))]
fn numbers_fit(h: Line, l: Line) -> bool
    ensures { result ≡ ranged h l }
{
    let (first, second) = limits_of(h, l.letter);
    let one = search::among(first, l.a);
    let two = search::among(second, l.b);
    one & (two & ((l.letter != read::P) | search::among(MODE_LIMIT, l.c)))
}

// 5: the line l comes after the line p.
#[tactic(auto, unfolding(crate::specs::Form::rises))]
fn comes_after(p: Line, l: Line) -> bool
    ensures { result ≡ rises p l }
{
    (p.letter, p.a, p.b, p.c) < (l.letter, l.a, l.b, l.c)
}

// 2 and 3, of line 1.
#[tactic(auto, unfolding(crate::specs::Form::head_verdict, crate::specs::Form::good_counts))]
fn head(l: Line) -> Result<(), Refusal>
    ensures { told verdict_of result ≡ head_verdict l }
{
    if l.letter != read::H {
        return Err(Refusal::Malformed { line: 1 });
    }
    if !counts_fit(l.a, l.b, l.c, l.d) {
        return Err(Refusal::Counts);
    }
    Ok(())
}

// 2, 4 and 5, of line k after line p.
#[tactic(auto, unfolding(crate::specs::Form::body_verdict))]
fn body(h: Line, p: Line, k: usize, l: Line) -> Result<(), Refusal>
    ensures { told verdict_of result ≡ body_verdict h p k l }
{
    if l.letter <= read::H {
        return Err(Refusal::Malformed { line: k });
    }
    if !numbers_fit(h, l) {
        return Err(Refusal::Numbers { line: k });
    }
    if !comes_after(p, l) {
        return Err(Refusal::Order { line: k });
    }
    Ok(())
}

// 2 to 5 of the lines, of which there is one at least.
#[tactic(auto, using(crate::proofs::Scanning::head_stops, crate::proofs::Scanning::head_passes, crate::proofs::Scanning::line_stops, crate::proofs::Scanning::line_passes))]
fn scan(f: &[u8]) -> Result<(), Refusal>
    requires { 1 ≤ lines f.now }
    ensures { told verdict_of result ≡ scan (lines f.now) (line_verdict f.now) }
{
    let h = read::first_line(f);
    head(h)?;
    let mut before = h;
    for (k, line) in reader::from_line(f, 2) {
        body(h, before, k, line)?;
        before = line;
    }
    Ok(())
}

// 1 to 5.
#[tactic(auto, using(crate::proofs::Scanning::bad_size_lem, crate::proofs::Scanning::good_size))]
pub fn lines(f: &[u8]) -> Result<(), Refusal>
    ensures { told verdict_of result ≡ lines_verdict f.now }
{
    let whole = !f.is_empty() && f.len() % read::LINE_LENGTH == 0;
    if !whole || LENGTH_LIMIT < f.len() {
        return Err(Refusal::Length);
    }
    scan(f)
}
