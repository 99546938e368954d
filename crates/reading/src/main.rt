// Runs reads of one session and prints, for each, its number and the bytes of the part of the
// store that it hands back. The role file is on standard input.
#![tactic(auto)]

use std::io;
use std::io::Write;
use text::input::read_full;

// A store of three cards: letters in turn, so that the bytes of a part tell where it stands.
fn letters() -> [u8; 192] {
    std::array::from_fn(|i| b'a' + (i % 26) as u8)
}

// One read: its number, a blank, and its part. It is asked for by four numbers, as `monitor::read`
// takes them.
fn show<W: Write>(
    out: &mut W,
    state: &[u8],
    store: &[u8],
    place: u64,
    card: u64,
    offset: u64,
    count: u64,
) -> io::Result<()> {
    let number = monitor::monitor_read_number(state, store, place, card, offset, count);
    write!(out, "{number} ")?;
    out.write_all(monitor::read(state, store, place, card, offset, count))?;
    out.write_all(b"\n")
}

// Reads up to the card's end, past it and of no bytes, of a card that the role does not give, of
// none, and at a place without a session.
fn show_all<W: Write>(out: &mut W, state: &[u8], store: &[u8]) -> io::Result<()> {
    show(out, state, store, 1, 2, 0, 6)?;
    show(out, state, store, 1, 2, 0, 64)?;
    show(out, state, store, 1, 1, 60, 4)?;
    show(out, state, store, 1, 1, 60, 5)?;
    show(out, state, store, 1, 1, 64, 0)?;
    show(out, state, store, 1, 3, 0, 6)?;
    show(out, state, store, 1, 4, 0, 6)?;
    show(out, state, store, 2, 3, 0, 6)
}

// User 1 is at label 2 with role 2, and writes between the first read and the others.
fn main(rt: HostRuntime) -> io::Result<()> {
    let mut file = [0u8; 65536];
    let n = read_full(&mut rt.stdin(), &mut file)?;
    let mut out = rt.stdout();
    let mut state = [0u8; 65536];
    let mut store = letters();
    monitor::monitor_load(&file[..n], &mut state);
    monitor::monitor_open(&mut state, 1, 1, 2);
    monitor::monitor_take(&mut state, 1, 2);
    show(&mut out, &state, &store, 1, 2, 0, 6)?;
    monitor::monitor_write(&state, &mut store, 1, 2, 1, b"TERM");
    show_all(&mut out, &state, &store)
}
