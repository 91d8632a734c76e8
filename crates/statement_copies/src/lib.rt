// One statement put as text, in either of the two texts: its row, its first test, and behind it what all its copies have in common.
#![tactic(auto)]

ghost use Rattle.std.specs.Prelude.{◌≡◌, ◌<◌};
ghost use Rattle.card.specs.Limits.{most_statements};
ghost use Rattle.card.specs.Laid.{statement_of};
ghost use Rattle.card.specs.Rows.{row_of};
ghost use Rattle.phrases.specs.Phrases.{counted};
ghost use Rattle.phrases.specs.Puts.{Puts};
ghost use Rattle.leaf_text.specs.Style.{look};
ghost use Rattle.statement_copies.specs.Copies.{first_text, rest_text, copy_text, kept_copy, Fits, KeepsTail};

use branch_text::put_branches;
use card::Statement;
use card::limits::{MOST_BRANCHES, MOST_NODES, NODE_PLACES, ROW, ROW_PLACES};
use guard_text::put_test;
use leaf_text::style::{Form, Style};
use phrases::{WEIGHT_MOST, put_numbered};
use put_numbers::put_number;
use room::{place, put_byte, put_bytes, put_filled, put_run};

// Enough for what stands behind a first test of the reduced program (texts/specs/Lengths.antt).
pub const TAIL_PLACES: usize = 652 + MOST_BRANCHES * WEIGHT_MOST;

// The first test: `s1=own`, or the counter of `own` above m; as one line, where the state has one digit.
fn put_first(room: &mut [u8], at: usize, m: usize, style: Style) -> usize
    ensures { Puts room.old room.new at (first_text (look style) m) result }
{
    match style.form {
        Form::Written => {
            if style.own < 10 {
                let mut line: [u8; 7] = *b"[] s1=0";
                line[6] = b'0' + style.own as u8;
                return put_filled(room, at, line);
            }
            put_numbered(room, at, b"[] s1=", style.own)
        }
        Form::Reduced => {
            if style.own < 10 {
                let mut line: [u8; 9] = *b"[] (no_0>";
                line[7] = b'0' + style.own as u8;
                let above = put_filled(room, at, line);
                let close = put_number(room, above, m);
                return put_byte(room, close, b')');
            }
            let a = put_numbered(room, at, b"[] (no_", style.own);
            let b = put_numbered(room, a, b">", m);
            put_byte(room, b, b')')
        }
    }
}

// Statement i behind its first test, by its row.
fn put_rest<'a>(
    room: &mut [u8],
    at: usize,
    i: usize,
    x: Statement,
    nodes: &'a [u32; NODE_PLACES],
    branches: &'a [u32],
    style: Style,
) -> usize
    requires { Fits branches.now x i }
    ensures { Puts room.old room.new at (rest_text (look style) (statement_of nodes.now branches.now x i)) result }
{
    let from = i * MOST_BRANCHES;
    let to = from + x.branches;
    let a = put_test(room, at, nodes, i * MOST_NODES, x.nodes, style);
    let b = put_bytes(room, a, b" -> ");
    let c = put_branches(room, b, &branches[from..to], style);
    put_bytes(room, c, b";\n")
}

// Copies that differ in the first test alone.
fn put_copies(room: &mut [u8], at: usize, rest: &[u8], style: Style) -> usize
    ensures { Puts room.old room.new at (counted (kept_copy (look style) rest.now) 0 style.copies) result }
{
    let mut to = place(at);
    for m in 0..style.copies {
        let a = put_first(room, to, m, style);
        to = put_run(room, a, rest);
    }
    to
}

// All copies of statement i: what several have in common is put once, beside the room.
pub fn put_statement<'a>(
    room: &mut [u8],
    at: usize,
    i: usize,
    x: Statement,
    nodes: &'a [u32; NODE_PLACES],
    branches: &'a [u32],
    style: Style,
) -> usize
    requires fits { Fits branches.now x i }
    requires keeps_tail { KeepsTail style.copies (look style) (statement_of nodes.now branches.now x i) }
    ensures { Puts room.old room.new at (counted (copy_text (look style) (statement_of nodes.now branches.now x i)) 0 style.copies) result }
{
    if style.copies == 1 {
        let a = put_first(room, at, 0, style);
        return put_rest(room, a, i, x, nodes, branches, style);
    }
    let mut rest: [u8; TAIL_PLACES] = [0; TAIL_PLACES];
    let end = put_rest(&mut rest, 0, i, x, nodes, branches, style);
    put_copies(room, at, &rest[..end], style)
}

// The row of statement i.
pub fn row_at(rows: &[usize; ROW_PLACES], i: usize) -> Statement
    requires { i < most_statements }
    ensures { result ≡ row_of rows.now i }
{
    let from = i * ROW;
    Statement {
        own: rows[from],
        nodes: rows[from + 1],
        branches: rows[from + 2],
    }
}
