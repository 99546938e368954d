// The lines of the report: 22 bytes each, in the form of a role file's.
ghost use Rattle.std.specs.Prelude.{◌<◌, All};
ghost use Rattle.text.specs.Added.{Adds};
ghost use Rattle.rolecheck.specs.Report.{line_with};

use text::Text;

// Puts the line of a letter and of numbers, each in a field, of which the line has three. It asks that
// five columns hold them: roles, levels and the numbers of a verdict are of no one type that says so.
// Where it is a call, each of a report's thousands of lines takes half as long again.
#[inline(always)]
#[tactic(auto, using(text::proofs::Each::each_none, text::proofs::Each::each_more, crate::proofs::Fields::field_given))]
pub fn line(text: &mut Text, letter: u8, numbers: &[u64])
    requires { All (λ n. n < 100000) numbers.now }
    ensures { Adds (line_with letter numbers.now) text.old text.new }
{
    text.put(&[letter]);
    for place in 0..3 {
        text.field(numbers.get(place).copied());
    }
    text.put(b"     \n");
}
