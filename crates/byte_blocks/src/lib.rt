// Blocks of 32 bytes moved within one lent room, lower or higher (document 02, 2026-12).
#![tactic(auto)]

ghost use Rattle.std.specs.Prelude.{◌≡◌, ◌+◌, ◌≤◌, length, take, drop};
ghost use Rattle.room.specs.Room.{clip};
ghost use Rattle.byte_blocks.specs.Blocks.{block_bytes, BlocksDown, BlocksUp};

const BLOCK_BYTES: usize = 32;

// In loops: of these the compiler makes loads and stores of many bytes, and of `copy_from_slice` a call, which is
// slower and takes stack.
fn block_at(room: &[u8], from: usize) -> [u8; BLOCK_BYTES]
    requires { from + block_bytes ≤ length room.now }
    ensures { result ≡ take block_bytes (drop from room.now) }
{
    let mut block: [u8; BLOCK_BYTES] = [0; BLOCK_BYTES];
    for i in 0..BLOCK_BYTES {
        block[i] = room[from + i];
    }
    block
}

fn put_block(room: &mut [u8], to: usize, block: &[u8; BLOCK_BYTES])
    requires block_bytes_in_bounds { to + block_bytes ≤ length room.old }
    requires block_len { length block.now ≡ block_bytes }
    ensures { room.new ≡ clip room.old to block.now }
{
    for i in 0..BLOCK_BYTES {
        room[to + i] = block[i];
    }
}

// Wherever a block goes, all of it is read before any of it is stored, so that a compiler can take it in words;
// `copy_within` moves single bytes where fewer than 32 lie between, and is slower.
fn move_block(room: &mut [u8], from: usize, to: usize)
    requires block_bytes_in_bounds { from + block_bytes ≤ length room.old }
    requires block_bytes_in_bounds_2 { to + block_bytes ≤ length room.old }
    ensures { room.new ≡ clip room.old to (take block_bytes (drop from room.old)) }
{
    let block = block_at(room, from);
    put_block(room, to, &block);
}

// Whole blocks lower, from the first on, and how many bytes they are.
pub fn blocks_down(room: &mut [u8], from: usize, to: usize, size: usize) -> usize
    requires to_le_from { to ≤ from }
    requires size_in_bounds { from + size ≤ length room.old }
    ensures { BlocksDown room.old room.new from to size result }
{
    let blocks = size / BLOCK_BYTES;
    for i in 0..blocks {
        move_block(room, from + BLOCK_BYTES * i, to + BLOCK_BYTES * i);
    }
    BLOCK_BYTES * blocks
}

// Whole blocks higher, from the last on, and how many bytes are left before them.
pub fn blocks_up(room: &mut [u8], from: usize, to: usize, size: usize) -> usize
    requires from_le_to { from ≤ to }
    requires size_in_bounds { to + size ≤ length room.old }
    ensures { BlocksUp room.old room.new from to size result }
{
    let left = size % BLOCK_BYTES;
    for i in (0..size / BLOCK_BYTES).rev() {
        let at = left + BLOCK_BYTES * i;
        move_block(room, from + at, to + at);
    }
    left
}
