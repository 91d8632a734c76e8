// The edges that document 01 has run ("Both sides of the edge"): a card on each side of its limit, and a room on each side of a text's
// length. What the writer answers is printed, and the file `stdout` fixes it.
#![tactic(auto)]

ghost use Rattle.std.specs.Prelude.{◌≤◌, length};

use card::Refusal;
use printing::write;
use put_numbers::put_number;
use room::put_bytes;
use std::io;
use std::io::Write;

// Longer than each card below and its written form.
const SPACE: usize = 2_048;

// How long the plain card is, and its written form, which is itself.
const PLAIN: usize = 82;

// A seat's own module.
fn put_module(card: &mut [u8], at: usize, seat: usize) -> usize {
    let a = put_bytes(card, at, b"module process");
    let b = put_number(card, a, seat);
    let c = put_bytes(card, b, b" = process1 [s1=s");
    let d = put_number(card, c, seat);
    let e = put_bytes(card, d, b", s");
    let f = put_number(card, e, seat);
    put_bytes(card, f, b"=s1] endmodule\n")
}

// The modules behind the first.
fn put_modules(card: &mut [u8], from: usize, modules: usize) -> usize {
    let mut at = from;
    for seat in 1..modules {
        at = put_module(card, at, seat + 1);
    }
    at
}

// A text's length, where it fitted: 0 where not.
fn whole(text: &[u8], end: usize) -> usize
    ensures { result ≤ length text.now }
{
    if text.len() < end { 0 } else { end }
}

// A card of so many modules, with this top state and guard, and its length.
fn lay(card: &mut [u8], modules: usize, top: usize, guard: &[u8]) -> usize
    ensures { result ≤ length card.new }
{
    let a = put_bytes(card, 0, b"probabilistic\nmodule process1\ns1 : [0..");
    let b = put_number(card, a, top);
    let c = put_bytes(card, b, b"] init 0;\n[] s1=0");
    let d = put_bytes(card, c, guard);
    let e = put_bytes(card, d, b" -> 1:(s1'=0);\nendmodule\n");
    let end = put_modules(card, e, modules);
    whole(card, end)
}

fn print(rt: &HostRuntime, text: &[u8]) -> io::Result<()> {
    io::writer(rt).write_all(text)
}

fn numbered(rt: &HostRuntime, text: &[u8], n: usize) -> io::Result<()> {
    print(rt, text)?;
    print!(rt; "{n}")
}

// The line of an answer.
fn say(rt: &HostRuntime, name: &[u8], answer: Result<usize, Refusal>) -> io::Result<()> {
    print(rt, name)?;
    match answer {
        Ok(long) => {
            numbered(rt, b": written, ", long)?;
        }
        Err(refusal) => {
            numbered(rt, b": refused ", usize::from(refusal.number))?;
            numbered(rt, b" ", refusal.place)?;
        }
    }
    print(rt, b"\n")
}

// A card laid so, in room enough.
fn edge(rt: &HostRuntime, name: &[u8], modules: usize, top: usize, guard: &[u8]) -> io::Result<()> {
    let mut card: [u8; SPACE] = [b' '; SPACE];
    let long = lay(&mut card, modules, top, guard);
    let mut room: [u8; SPACE] = [b'.'; SPACE];
    say(rt, name, write(&card[..long], &mut room))
}

// The plain card in a room that just fits it and in one a byte short, and what the room holds then.
fn rooms(rt: &HostRuntime) -> io::Result<()> {
    let mut card: [u8; PLAIN] = [b' '; PLAIN];
    let long = lay(&mut card, 1, 0, b"");
    let mut fits: [u8; PLAIN] = [b'.'; PLAIN];
    say(rt, b"a room that fits", write(&card[..long], &mut fits))?;
    print(rt, &fits)?;
    let mut short: [u8; PLAIN - 1] = [b'.'; PLAIN - 1];
    say(rt, b"one byte short", write(&card[..long], &mut short))?;
    print(rt, &short)?;
    print(rt, b"\n")
}

fn main(rt: HostRuntime) -> io::Result<()> {
    let mut room: [u8; SPACE] = [b'.'; SPACE];
    say(&rt, b"no card", write(b"", &mut room))?;
    edge(&rt, b"16 modules", 16, 0, b"")?;
    edge(&rt, b"17 modules", 17, 0, b"")?;
    edge(&rt, b"top state 7", 1, 7, b"")?;
    edge(&rt, b"top state 8", 1, 8, b"")?;
    edge(&rt, b"depth 8", 1, 0, b" & !(!(!(!((s1=0)))))")?;
    edge(&rt, b"depth 9", 1, 0, b" & !!(!(!(!((s1=0)))))")?;
    rooms(&rt)
}
