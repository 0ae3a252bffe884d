// Plays encoded calls on real buffers: document 01's session, then a write, reads, a list, codes that are no calls,
// the map, written and read back, and hand-backs. Writes three numbers a call, then the byte buffer and the records.
#![tactic(auto)]

use memory::no_start;

const CODES: [[u64; 5]; 40] = [
    [1, 1, 8, 3, 256],
    [2, 0, 0, 0, 0],
    [2, 0, 4, 0, 0],
    [4, 0, 5, 0, 0],
    [4, 0, 1, 0, 0],
    [4, 0, 6, 0, 0],
    [4, 0, 5, 0, 0],
    [4, 0, 7, 0, 0],
    [2, 0, 6, 0, 0],
    [6, 0, 4, 0, 0],
    [5, 0, 5, 0, 0],
    [4, 0, 2, 0, 0],
    [5, 0, 9, 0, 0],
    [3, 0, 4, 0, 0],
    [4, 0, 7, 0, 0],
    [6, 0, 0, 0, 0],
    [2, 0, 0, 0, 0],
    [10, 0, 510, 0, 6],
    [9, 0, 509, 8, 6],
    [9, 0, 510, 8, 6],
    [11, 0, 3, 6, 0],
    [7, 0, 0, 0, 0],
    [8, 0, 511, 0, 0],
    [99, 0, 0, 0, 0],
    [9, 0, 0, 84, 9],
    [2, 4294967296, 0, 0, 0],
    [12, 16, 71, 0, 0],
    [12, 16, 72, 0, 0],
    [13, 16, 68, 0, 0],
    [13, 16, 72, 0, 0],
    [7, 0, 0, 0, 0],
    [9, 0, 510, 8, 6],
    [13, 17, 72, 0, 0],
    [14, 0, 1, 0, 0],
    [14, 0, 1, 0, 0],
    [14, 0, 9, 0, 0],
    [14, 4294967296, 0, 0, 0],
    [7, 0, 0, 0, 0],
    [4, 0, 5, 0, 0],
    [6, 0, 0, 0, 0],
];

// The numbers, a blank after each.
fn print_numbers<T: Copy + Into<u64>>(numbers: &[T]) {
    for n in numbers {
        io::print_decimal(1, (*n).into());
        io::write_all(1, b" ");
    }
}

// The numbers on a line.
fn print_line<T: Copy + Into<u64>>(numbers: &[T]) {
    print_numbers(numbers);
    io::write_all(1, b"\n");
}

fn main() {
    let mut replies = [7u64; 122];
    let mut bytes = [9u8; 88];
    bytes[..8].copy_from_slice(b"hello!\0\0");
    let mut records = [5u32; 12];
    let mut index = [0xffff_ffff_ffff_ffffu64; 3];
    let mut count = [1u32; 9];
    let mut table = [2u32; 8];
    let mut helper = [0u32; 8];
    let mut stack = [5u32; 8];
    let mut cache = [0u32; 8];
    let mut link = [1u32; 4];
    let mut ram = [0u8; 800];
    codes::play(
        no_start(),
        CODES.as_flattened(),
        &mut replies,
        &mut bytes,
        &mut records,
        &mut index,
        &mut count,
        &mut table,
        &mut helper,
        &mut stack,
        &mut cache,
        &mut link,
        &mut ram,
    );
    let (answers, left) = replies.as_chunks::<3>();
    for answer in answers {
        print_line(answer);
    }
    // What is left of the replies stands on the line of the bytes.
    print_numbers(left);
    print_line(&bytes);
    print_line(&records);
}
