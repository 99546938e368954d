// A file whose lines have nothing to refuse, taken apart by the letters of its lines.
//
// Each table that lines fill has its own loop over them: what one closure changed behind a `&mut`, a
// contract of its caller could not say. They go by index, which `first_number` and the two beside it
// take.
ghost use Rattle.std.specs.Prelude.{◌≡◌, IfOk};
ghost use Rattle.rolefile.specs.Form.{lines_verdict};
ghost use Rattle.rolefile.specs.Refusal.{told, verdict_of};
ghost use Rattle.policy.specs.inner.Stages.{Ready, Taken};

use super::counts::Counts;
use rolefile::{Refusal, check, read};

// The lines at the front of a part that have the letter, and the part after them.
fn take_letter(part: &[u8], letter: u8) -> (&[u8], &[u8])
    ensures { Taken letter part.now result.0.now result.1.now }
{
    part.split_at(read::LINE_LENGTH * read::leading(part, letter))
}

// The file, its counts, and the lines of each letter after H.
#[derive(Clone, Copy)]
pub struct File<'a> {
    pub bytes: &'a [u8],
    pub counts: Counts,
    pub dominance: &'a [u8],
    pub seniority: &'a [u8],
    pub clearances: &'a [u8],
    pub card_labels: &'a [u8],
    pub permissions: &'a [u8],
    pub assignments: &'a [u8],
    ghost ready: { Ready bytes.now counts dominance.now seniority.now clearances.now card_labels.now permissions.now assignments.now },
}

impl<'a> File<'a> {
    // Takes the file apart, unless 1 to 5 refuse it.
    pub fn of(bytes: &'a [u8]) -> Result<File<'a>, Refusal>
        ensures told { told verdict_of result ≡ lines_verdict bytes.now }
        ensures same { IfOk result (λ file. file.bytes.now ≡ bytes.now) }
    {
        check::lines(bytes)?;
        let head = read::first_line(bytes);
        let counts = Counts {
            labels: head.a as usize,
            roles: head.b as usize,
            users: head.c as usize,
            cards: head.d as usize,
        };
        let (dominance, rest) = take_letter(read::part(bytes, 1), read::D_BYTE);
        let (seniority, rest) = take_letter(rest, read::S_BYTE);
        let (clearances, rest) = take_letter(rest, read::U_BYTE);
        let (card_labels, rest) = take_letter(rest, read::O_BYTE);
        let (permissions, rest) = take_letter(rest, read::P_BYTE);
        let (assignments, _) = take_letter(rest, read::A_BYTE);
        Ok(File {
            bytes,
            counts,
            dominance,
            seniority,
            clearances,
            card_labels,
            permissions,
            assignments,
        })
    }
}
