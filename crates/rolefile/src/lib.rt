// The form of a role file: fields, lines, and the numbers 1 to 5.
#![tactic(auto)]

pub mod check;
pub mod read;
pub mod reader;

ghost use Rattle.std.specs.Prelude.{◌≡◌, MatchResult};
ghost use Rattle.rolefile.specs.Form.{fine};
ghost use Rattle.rolefile.specs.Refusal.{verdict_of};

// What the five columns of a field say.
#[derive(Clone, Copy, Debug, PartialEq, Eq)]
pub enum Field {
    Blank,
    Number(u64),
    Bad,
}

// A line: its letter's row in the table of letters, 1 to 7, or 0 for a malformed line, and its
// numbers, 0 where a field has no use. The letter is a number, since `line_at`, `says` and
// `LineRefused` speak of it as one, 0 included.
#[derive(Clone, Copy, Debug, PartialEq, Eq)]
pub struct Line {
    pub letter: u64,
    pub a: u64,
    pub b: u64,
    pub c: u64,
    pub d: u64,
}

// The number of a refusal and its place, two numbers that say where the file is refused; 0, 0, 0
// where there is nothing to refuse. Checks answer by `Refusal`; this is what definitions of checks
// (`lines_verdict`), `Outcome` and C have of it.
#[derive(Clone, Copy, Debug, PartialEq, Eq)]
pub struct Verdict {
    pub number: u64,
    pub first: u64,
    pub second: u64,
}

// Why a file is refused for its form: the numbers 1 to 5, each with the line where it is found. The
// counts stand in line 1.
#[derive(Clone, Copy, Debug, PartialEq, Eq)]
pub enum Refusal {
    Length,
    Malformed { line: usize },
    Counts,
    Numbers { line: usize },
    Order { line: usize },
}

impl From<Refusal> for Verdict {
    ghost from_gives = { λ r v. v ≡ verdict_of r };

    fn from(r: Refusal) -> Verdict {
        match r {
            Refusal::Length => check::refused(1, 0, 0),
            Refusal::Malformed { line } => check::refused(2, line as u64, 0),
            Refusal::Counts => check::refused(3, 1, 0),
            Refusal::Numbers { line } => check::refused(4, line as u64, 0),
            Refusal::Order { line } => check::refused(5, line as u64, 0),
        }
    }
}

// The verdict of a check: that of its error, or that there is nothing to refuse.
impl<E: Into<Verdict>> From<Result<(), E>> for Verdict {
    ghost from_gives = { λ r v. MatchResult r (λ _. v ≡ fine) (λ e. E.converts e v) };

    fn from(r: Result<(), E>) -> Verdict {
        match r {
            Ok(()) => Verdict {
                number: 0,
                first: 0,
                second: 0,
            },
            Err(e) => e.into(),
        }
    }
}
