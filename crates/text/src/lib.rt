// Text put into a buffer: bytes, and numbers in columns; and a buffer filled from a reader.
//
// A buffer that is too short for a text holds as much of its start as there is room for.
#![tactic(auto)]

pub mod input;

ghost use Rattle.std.specs.Prelude.{◌≡◌, ◌≤◌, ◌<◌, min, length, take};
ghost use Rattle.text.specs.Text.{last_columns};
ghost use Rattle.text.specs.inner.Digit.{digit_of};

// A text at the start of a buffer: the bytes of it that are in use.
#[derive(Drop)]
pub struct Text<'a> {
    buffer: &'a mut [u8],
    used: usize,
    ghost fits: { used ≤ length buffer.now },
}

impl<'a> Text<'a> {
    ghost use Rattle.std.specs.Prelude.{◌≡◌, ◌<◌, min, length, IfSome};
    ghost use Rattle.text.specs.Text.{last_columns, field_columns};
    ghost use Rattle.text.specs.Added.{Adds, in_use};

    // The first bytes of a buffer, as many as are in use; all of one that is shorter.
    pub fn new(buffer: &'a mut [u8], used: usize) -> Text<'a>
        ensures same_buffer { result.buffer.ghost_name ≡ buffer.entry.ghost_name }
        ensures bytes { result.buffer.now ≡ buffer.old }
        ensures used { result.used ≡ min used (length buffer.old) }
    {
        let used = used.min(buffer.len());
        Text { buffer, used }
    }

    // The bytes in use.
    pub fn bytes(&self) -> &[u8]
        ensures { result.now ≡ in_use self.now }
    {
        &self.buffer[..self.used]
    }

    // Puts bytes after those in use, as far as there is room.
    pub fn put(&mut self, bytes: &[u8])
        ensures { Adds bytes.now self.old self.new }
    {
        let count = fill(&mut self.buffer[self.used..], bytes);
        self.used += count;
    }

    // Puts the five columns of a number, or blanks for a field without use: a number below 100,000
    // whole, and the last five digits of any other.
    #[tactic(auto, using(crate::proofs::Padded::as_written_below))]
    pub fn field(&mut self, number: Option<u64>)
        ensures whole { IfSome number (λ n. n < 100000) → Adds (field_columns number) self.old self.new }
        ensures last { Adds (last_columns number) self.old self.new }
    {
        self.put(&columns(number));
    }
}

// Puts bytes into a part as far as there is room, and answers how many. One by one, since a field has
// so few that a call of the library's copy takes longer.
fn fill(part: &mut [u8], bytes: &[u8]) -> usize
    ensures count { result ≡ min (length part.old) (length bytes.now) }
    ensures long { length part.new ≡ length part.old }
    ensures bytes { take result part.new ≡ take result bytes.now }
{
    for i in 0..bytes.len() {
        if part.len() <= i {
            return i;
        }
        part[i] = bytes[i];
    }
    bytes.len()
}

// What a column before the last shows, where n is the number less its digits after that column:
// the last digit of n, or a blank where n is 0.
fn digit(n: u64) -> u8
    ensures { result ≡ digit_of n }
{
    if n == 0 {
        return b' ';
    }
    b'0' + (n % 10) as u8
}

// The five columns of a number, or blanks for a field without use. They hold a number below 100,000
// whole, and the last five digits of any other, of which `write!` would put more than five.
#[tactic(auto, using(crate::proofs::Padded::columns_last))]
fn columns(number: Option<u64>) -> [u8; 5]
    ensures five { 5 ≡ length result }
    ensures columns { result ≡ last_columns number }
{
    let Some(n) = number else {
        return [b' '; 5];
    };
    [
        digit(n / 10000),
        digit(n / 1000),
        digit(n / 100),
        digit(n / 10),
        b'0' + (n % 10) as u8,
    ]
}
