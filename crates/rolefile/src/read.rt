// Reading fields and lines.
ghost use Rattle.std.specs.Prelude.{◌≡◌, false, [], ◌∷◌, ◌+◌, ◌*◌, ◌-◌, ◌%◌, ◌≤◌, ◌<◌, eqb, length, MatchOption};
ghost use Rattle.std.specs.Option.{unwrap_or};
ghost use Rattle.std.specs.Simd.{first_chunks};
ghost use Rattle.rolefile.specs.Field.{digit_zero, digit_nine, is_digit, column, columns, five, field_number};
ghost use Rattle.rolefile.specs.inner.Field.{taken_out, AtOnce};
ghost use Rattle.rolefile.specs.inner.Section.{figure, figure_of, one, two, three, Leads};
ghost use Rattle.rolefile.specs.Line.{line_length, letter_of, fields, no_line, line_from, line_at, lines, part};

use super::{Field, Line};

// A line's length, a field's, and the byte at a line's end.
pub const LINE_LENGTH: usize = 22;

const FIELD_LENGTH: usize = 5;

const NEWLINE: u8 = b'\n';

// The letters by their rows in the table of letters, as numbers: `line_at` has them so in a Line.
pub const H: u64 = 1;

pub const D: u64 = 2;

pub const S: u64 = 3;

pub const U: u64 = 4;

pub const O: u64 = 5;

pub const P: u64 = 6;

pub const A: u64 = 7;

// Their bytes.
pub const H_BYTE: u8 = b'H';

pub const D_BYTE: u8 = b'D';

pub const S_BYTE: u8 = b'S';

pub const U_BYTE: u8 = b'U';

pub const O_BYTE: u8 = b'O';

pub const P_BYTE: u8 = b'P';

pub const A_BYTE: u8 = b'A';

// The byte of a blank.
const BLANK: u8 = b' ';

// Whether the byte is a digit.
pub fn is_digit(b: u8) -> bool
    ensures { result ≡ is_digit b }
{
    b.is_ascii_digit()
}

// What a digit says.
fn value(b: u8) -> u64
    requires { digit_zero ≤ b }
    ensures { (result ≡ b - digit_zero) × (result < 256) }
{
    b as u64 - b'0' as u64
}

// The number n with the digit b after it, unless n is 0 or has five digits. The library's parse takes
// a sign and leading zeros, which a field may not have.
#[tactic(auto, unfolding(crate::specs::Field::column, crate::specs::Field::is_digit))]
fn next_digit(n: u64, b: u8) -> Field
    ensures { result ≡ column (Field.Number n) b }
{
    if !is_digit(b) {
        return Field::Bad;
    }
    if !search::among(9999, n) {
        return Field::Bad;
    }
    Field::Number(10 * n + value(b))
}

// A blank, or a first digit.
#[tactic(auto, unfolding(crate::specs::Field::column, crate::specs::Field::is_digit))]
fn first_digit(b: u8) -> Field
    ensures { result ≡ column Field.Blank b }
{
    if b == BLANK {
        return Field::Blank;
    }
    if !is_digit(b) {
        return Field::Bad;
    }
    Field::Number(value(b))
}

// What the columns so far say, with one column more.
#[tactic(auto, unfolding(crate::specs::Field::column))]
fn column(f: Field, b: u8) -> Field
    ensures { result ≡ column f b }
{
    match f {
        Field::Blank => first_digit(b),
        Field::Number(n) => next_digit(n, b),
        Field::Bad => Field::Bad,
    }
}

// The field of five columns, column by column.
#[tactic(auto, unfolding(crate::specs::Field::columns))]
fn by_columns(bytes: &[u8; FIELD_LENGTH]) -> Field
    ensures { result ≡ columns Field.Blank bytes.now }
{
    let mut f = Field::Blank;
    for b in bytes {
        f = column(f, *b);
    }
    f
}

// The number in a field's last three columns, of which the last is a digit, where those before them
// are blanks. None tells nothing.
#[tactic(auto, using(crate::proofs::Decimals::one_digit, crate::proofs::Decimals::two_digits, crate::proofs::Decimals::three_digits))]
fn last_three(x: u8, y: u8, z: u8) -> Option<u64>
    requires { (digit_zero ≤ z) × (z ≤ digit_nine) }
    ensures { AtOnce result (columns Field.Blank (x ∷ y ∷ z ∷ [])) }
{
    match (x, y) {
        (BLANK, BLANK) => Some(value(z)),
        (BLANK, b'1'..=b'9') => Some(10 * value(y) + value(z)),
        (b'1'..=b'9', b'0'..=b'9') => Some(100 * value(x) + (10 * value(y) + value(z))),
        _ => None,
    }
}

// Two blanks as one number, and four: comparing columns one by one, by a pattern, takes longer.
const TWO_BLANKS: u16 = 0x2020;

const FOUR_BLANKS: u32 = 0x2020_2020;

// The number in the five columns, where it has up to three digits, as each number of an accepted
// file has. None tells nothing.
#[tactic(auto, using(crate::proofs::Reading::after_two))]
fn at_once(bytes: &[u8; FIELD_LENGTH]) -> Option<u64>
    ensures { AtOnce result (columns Field.Blank bytes.now) }
{
    let [v, w, x, y, z] = *bytes;
    if u16::from_le_bytes([v, w]) != TWO_BLANKS {
        return None;
    }
    if !is_digit(z) {
        return None;
    }
    last_three(x, y, z)
}

// The field of five columns.
fn field(bytes: &[u8; FIELD_LENGTH]) -> Field
    ensures { result ≡ columns Field.Blank bytes.now }
{
    match at_once(bytes) {
        Some(n) => Field::Number(n),
        None => by_columns(bytes),
    }
}

// The field of five columns, where a number of one digit, as a mode is, is read at once.
#[tactic(auto, using(crate::proofs::Reading::after_four))]
fn digit_field(bytes: &[u8; FIELD_LENGTH]) -> Field
    ensures { result ≡ columns Field.Blank bytes.now }
{
    let [v, w, x, y, z] = *bytes;
    if u32::from_le_bytes([v, w, x, y]) == FOUR_BLANKS {
        return first_digit(z);
    }
    by_columns(bytes)
}

// Whether the five columns are blanks.
#[tactic(auto, using(crate::proofs::Reading::blank_tested))]
fn all_blank(bytes: &[u8; FIELD_LENGTH]) -> bool
    ensures { result ≡ eqb (field_number false (columns Field.Blank bytes.now)) 0 }
{
    let [v, w, x, y, z] = *bytes;
    (u32::from_le_bytes([v, w, x, y]) == FOUR_BLANKS) & (z == BLANK)
}

// What a line takes out of a field that not every letter uses: its number where it is in use, 0
// where it has no use, and None where it ends its line. It is read only where it is in use.
#[tactic(auto, unfolding(crate::specs::inner::Field::taken_out))]
fn taken_out(bytes: &[u8; FIELD_LENGTH], used: bool) -> Option<u64>
    ensures { result ≡ taken_out used (columns Field.Blank bytes.now) }
{
    if !used {
        return if all_blank(bytes) { Some(0) } else { None };
    }
    match digit_field(bytes) {
        Field::Number(n) => Some(n),
        Field::Blank | Field::Bad => None,
    }
}

// A letter's row in the table of letters.
#[tactic(auto, unfolding(crate::specs::Line::letter_of, search::specs::Search::first))]
fn letter(b: u8) -> Option<u64>
    ensures { MatchOption result (letter_of b ≡ 0) (λ k. (letter_of b ≡ k) × (1 ≤ k)) }
{
    match b {
        H_BYTE => Some(H),
        D_BYTE => Some(D),
        S_BYTE => Some(S),
        U_BYTE => Some(U),
        O_BYTE => Some(O),
        P_BYTE => Some(P),
        A_BYTE => Some(A),
        _ => None,
    }
}

// How many fields a letter's lines have.
#[tactic(auto, unfolding(crate::specs::Line::fields))]
fn field_count(k: u64) -> u64
    ensures { result ≡ fields k }
{
    match k {
        H => 4,
        P => 3,
        _ => 2,
    }
}

// The columns of a line's four fields.
#[tactic(auto, using(crate::proofs::Reading::four_fields))]
fn fields(line: &[u8; LINE_LENGTH]) -> &[[u8; FIELD_LENGTH]; 4]
    ensures { result.now ≡ five line.now 1 ∷ five line.now 6 ∷ five line.now 11 ∷ five line.now 16 ∷ [] }
{
    let (columns, _) = line[1..].as_chunks();
    columns.first_chunk().unwrap()
}

// The line in the bytes, or None for a malformed one: a field that does not read as asked ends it.
// Here and at `line` the compiler is told to inline, so that a line is not handed over through memory.
#[tactic(auto, using(crate::proofs::Reading::taken_iff, crate::proofs::Written::not_made))]
#[inline(always)]
fn line_from(bytes: &[u8; LINE_LENGTH]) -> Option<Line>
    ensures { unwrap_or result no_line ≡ line_from bytes.now 0 }
{
    let letter = letter(bytes[0])?;
    let [a, b, c, d] = fields(bytes);
    let Field::Number(a) = field(a) else {
        return None;
    };
    let Field::Number(b) = field(b) else {
        return None;
    };
    let c = taken_out(c, 3 <= field_count(letter))?;
    let d = taken_out(d, 4 <= field_count(letter))?;
    if bytes[21] != NEWLINE {
        return None;
    }
    Some(Line { letter, a, b, c, d })
}

// The file's lines, without what stands after the last whole one.
fn whole_lines(f: &[u8]) -> &[[u8; LINE_LENGTH]]
    ensures value { result.now ≡ first_chunks line_length (lines f.now) f.now }
    ensures len { length result.now ≡ lines f.now }
{
    let (whole, _) = f.as_chunks();
    whole
}

// A malformed line.
const NO_LINE: Line = Line {
    letter: 0,
    a: 0,
    b: 0,
    c: 0,
    d: 0,
};

// Line k of the file, counted from 1; a malformed one where the file has fewer.
#[tactic(auto, using(crate::proofs::Reading::past_end), unfolding(crate::specs::Line::line_at))]
#[inline(always)]
pub fn line(f: &[u8], k: usize) -> Line
    ensures { result ≡ line_at f.now k }
{
    let Some(bytes) = whole_lines(f).get(k.saturating_sub(1)) else {
        return NO_LINE;
    };
    line_from(bytes).unwrap_or(NO_LINE)
}

// Line 1 of the file.
pub fn first_line(f: &[u8]) -> Line
    ensures { result ≡ line_at f.now 1 }
{
    line(f, 1)
}

// What a column counts: a digit its value, and a blank 0.
fn digit(x: u8) -> usize
    ensures { (result ≡ x % 16) × (result < 16) }
{
    (x % 16) as usize
}

// What five columns come to, where they are known to be a number.
fn figure(bytes: &[u8; FIELD_LENGTH]) -> usize
    ensures { result ≡ figure bytes.now 0 }
{
    let [v, w, x, y, z] = *bytes;
    let high = 10000 * digit(v) + 1000 * digit(w);
    let low = 10 * digit(y) + digit(z);
    high + (100 * digit(x) + low)
}

// What field j of line i + 1 comes to, the first being field 0, or 0 where the part has no such line:
// 0 and no None, since `one`, `two` and `three` say so.
fn figure_of(p: &[u8], i: usize, j: usize) -> usize
    requires { j < 4 }
    ensures { result ≡ figure_of (5 * j + 1) p.now (i + 1) }
{
    let Some(line) = whole_lines(p).get(i) else {
        return 0;
    };
    figure(&fields(line)[j])
}

// The first number of line i + 1 of a part whose lines are known to be well formed, or 0 where the
// part has no such line. Each of the three has a name of its own, since `one`, `two` and `three` state
// what callers are promised.
#[tactic(auto, unfolding(crate::specs::inner::Section::one))]
pub fn first_number(p: &[u8], i: usize) -> usize
    ensures { result ≡ one p.now (i + 1) }
{
    figure_of(p, i, 0)
}

// The second.
#[tactic(auto, unfolding(crate::specs::inner::Section::two))]
pub fn second_number(p: &[u8], i: usize) -> usize
    ensures { result ≡ two p.now (i + 1) }
{
    figure_of(p, i, 1)
}

// The third.
#[tactic(auto, unfolding(crate::specs::inner::Section::three))]
pub fn third_number(p: &[u8], i: usize) -> usize
    ensures { result ≡ three p.now (i + 1) }
{
    figure_of(p, i, 2)
}

// How many lines at the front of a part have the letter.
pub fn leading(p: &[u8], letter: u8) -> usize
    ensures { Leads p.now letter result }
{
    whole_lines(p)
        .iter()
        .take_while(|line| line[0] == letter)
        .count()
}

// The part of the file that starts after its first j lines.
pub fn part(f: &[u8], j: usize) -> &[u8]
    ensures { result.now ≡ part f.now j }
{
    let at = LINE_LENGTH.saturating_mul(j).min(f.len());
    &f[at..]
}
