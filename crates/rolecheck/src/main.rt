// Checks the role file on standard input and prints its verdict, and of a file that is accepted
// the levels of its roles, its role flow, and the lowest role on a circle of flow.
#![tactic(auto)]

mod line;
mod report;

use std::io;
use std::io::Write;
use text::input::read_full;

// Writes the report on a role file. Its buffer is of a fixed size, as that of the file: nothing here
// allocates.
fn write_report<W: Write>(output: &mut W, file: &[u8]) -> io::Result<()> {
    let mut out = [0u8; report::MOST_BYTES];
    output.write_all(report::report(file, &mut out).bytes())
}

fn main(rt: HostRuntime) -> io::Result<()> {
    let mut file = [0u8; 65536];
    let n = read_full(&mut rt.stdin(), &mut file)?;
    write_report(&mut rt.stdout(), &file[..n])
}
