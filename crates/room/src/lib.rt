// Text into a lent room, shared by all entries, and what an entry answers ("Refusal numbers").
#![tactic(auto)]

ghost use Rattle.std.specs.Prelude.{◌≡◌, [], ◌∷◌, ◌+◌, ◌≤◌, min, length};
ghost use Rattle.room.specs.Room.{cap, Put};

// Past every room: a place stops there, so that no put asks anything of its caller.
const CAP: usize = 9223372036854775808;

// The place after `n` bytes from `at` on.
pub fn after(at: usize, n: usize) -> usize
    ensures { result ≡ min (at + n) cap }
{
    at.saturating_add(n).min(CAP)
}

// The place after an empty text at `at`: a loop of puts starts from it.
pub fn place(at: usize) -> usize
    ensures { result ≡ min at cap }
{
    at.min(CAP)
}

// One byte. Each put answers the place after its text.
pub fn put_byte(room: &mut [u8], at: usize, b: u8) -> usize
    ensures { Put room.old room.new at (b ∷ []) result }
{
    if at < room.len() {
        room[at] = b;
        return at + 1;
    }
    after(at, 1)
}

// Bytes that there is place for in the room. They are stored by a loop: the library's `copy_from_slice` would be a call
// of memmove, which not every target has.
fn put_whole(room: &mut [u8], at: usize, s: &[u8]) -> usize
    requires { at + length s.now ≤ length room.old }
    ensures { Put room.old room.new at s.now result }
{
    for i in 0..s.len() {
        let to = at + i;
        room[to] = s[i];
    }
    at + s.len()
}

// Any bytes: how many the room has places for is asked once.
pub fn put_run(room: &mut [u8], at: usize, s: &[u8]) -> usize
    ensures { Put room.old room.new at s.now result }
{
    let n = s.len().min(room.len().saturating_sub(at));
    // by an index: there is no slice of the room behind its end
    for i in 0..n {
        room[at + i] = s[i];
    }
    after(at, s.len())
}

// The same for a fixed text, `put_bytes(room, at, b" & ")`: where it fits, so many bytes are stored at once.
pub fn put_bytes(room: &mut [u8], at: usize, s: &[u8]) -> usize
    ensures { Put room.old room.new at s.now result }
{
    if at < room.len() && s.len() <= room.len() - at {
        return put_whole(room, at, s);
    }
    put_run(room, at, s)
}

// A text of fixed length, a byte string with its holes filled: where it fits, the compiler sees all of it and stores its bytes straight into
// the room. Only what is clipped is copied, and so has to lie in memory.
pub fn put_filled<const N: usize>(room: &mut [u8], at: usize, text: [u8; N]) -> usize
    ensures { Put room.old room.new at text.entry result }
{
    if at < room.len() && N <= room.len() - at {
        return put_whole(room, at, &text);
    }
    let kept = text;
    put_run(room, at, &kept)
}
