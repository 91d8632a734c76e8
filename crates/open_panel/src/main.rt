// The panel program: reads standard input, prints the panel or the refusal. All that it prints is `panel::program::respond`'s.
#![tactic(auto)]

use panel::program::{INPUT_BYTES, OUTPUT_BYTES, respond};
use std::io;
use std::io::{Read, Write};

fn main(rt: HostRuntime) -> io::Result<()> {
    let mut input = Vec::new(rt.alloc());
    rt.reader()
        .take(INPUT_BYTES as u64)
        .read_to_end(&mut input)?;
    let mut room: [u8; OUTPUT_BYTES] = [0; OUTPUT_BYTES];
    let long = respond(&input, &mut room);
    io::writer(&rt).write_all(&room[..long])
}
