//! Where the rows of each opcode stand in the instruction table.
ghost use Rattle.std.specs.Prelude.{◌≡◌};
ghost use Rattle.bpf_codec.specs.Decoding.{rows_of};
ghost use Rattle.bpf_codec.specs.declared.places.TheConstants.{FIRSTS, COUNTS};

use isa_table::{Instr, rows};

/// By opcode, where its rows begin in `rows()`.
const FIRSTS: [u8; 256] = [
    0, 0, 0, 0, 0, 1, 2, 3, 0, 0, 0, 0, 4, 0, 0, 5, // 00 to 0f
    0, 0, 0, 0, 6, 7, 8, 9, 10, 0, 0, 0, 11, 12, 13, 14, // 10 to 1f
    0, 0, 0, 0, 15, 16, 17, 18, 0, 0, 0, 0, 19, 20, 21, 22, // 20 to 2f
    0, 0, 0, 0, 23, 25, 26, 27, 0, 0, 0, 0, 29, 31, 32, 33, // 30 to 3f
    0, 0, 0, 0, 35, 36, 37, 38, 0, 0, 0, 0, 39, 40, 41, 42, // 40 to 4f
    0, 0, 0, 0, 43, 44, 45, 46, 0, 0, 0, 0, 47, 48, 49, 50, // 50 to 5f
    0, 51, 52, 53, 54, 55, 56, 57, 0, 58, 59, 60, 61, 62, 63, 64, // 60 to 6f
    0, 65, 66, 67, 68, 69, 70, 71, 0, 72, 73, 74, 75, 76, 77, 78, // 70 to 7f
    0, 79, 0, 0, 80, 81, 0, 83, 0, 84, 0, 0, 0, 0, 0, 0, // 80 to 8f
    0, 85, 0, 0, 86, 88, 0, 89, 0, 0, 0, 0, 91, 0, 0, 93, // 90 to 9f
    0, 0, 0, 0, 95, 96, 97, 98, 0, 0, 0, 0, 99, 100, 101, 102, // a0 to af
    0, 0, 0, 0, 103, 104, 105, 106, 0, 0, 0, 0, 107, 110, 111, 112, // b0 to bf
    0, 0, 0, 116, 126, 127, 128, 129, 0, 0, 0, 0, 130, 131, 132, 133, // c0 to cf
    0, 0, 0, 0, 134, 137, 138, 139, 0, 0, 0, 142, 152, 155, 156, 0, // d0 to df
    0, 0, 0, 0, 0, 0, 0, 0, 0, 0, 0, 0, 0, 0, 0, 0, // e0 to ef
    0, 0, 0, 0, 0, 0, 0, 0, 0, 0, 0, 0, 0, 0, 0, 0, // f0 to ff
];

/// By opcode, how many rows it has.
const COUNTS: [u8; 256] = [
    0, 0, 0, 0, 1, 1, 1, 1, 0, 0, 0, 0, 1, 0, 0, 1, // 00 to 0f
    0, 0, 0, 0, 1, 1, 1, 1, 1, 0, 0, 0, 1, 1, 1, 1, // 10 to 1f
    0, 0, 0, 0, 1, 1, 1, 1, 0, 0, 0, 0, 1, 1, 1, 1, // 20 to 2f
    0, 0, 0, 0, 2, 1, 1, 2, 0, 0, 0, 0, 2, 1, 1, 2, // 30 to 3f
    0, 0, 0, 0, 1, 1, 1, 1, 0, 0, 0, 0, 1, 1, 1, 1, // 40 to 4f
    0, 0, 0, 0, 1, 1, 1, 1, 0, 0, 0, 0, 1, 1, 1, 1, // 50 to 5f
    0, 1, 1, 1, 1, 1, 1, 1, 0, 1, 1, 1, 1, 1, 1, 1, // 60 to 6f
    0, 1, 1, 1, 1, 1, 1, 1, 0, 1, 1, 1, 1, 1, 1, 1, // 70 to 7f
    0, 1, 0, 0, 1, 2, 0, 1, 0, 1, 0, 0, 0, 0, 0, 0, // 80 to 8f
    0, 1, 0, 0, 2, 1, 0, 2, 0, 0, 0, 0, 2, 0, 0, 2, // 90 to 9f
    0, 0, 0, 0, 1, 1, 1, 1, 0, 0, 0, 0, 1, 1, 1, 1, // a0 to af
    0, 0, 0, 0, 1, 1, 1, 1, 0, 0, 0, 0, 3, 1, 1, 4, // b0 to bf
    0, 0, 0, 10, 1, 1, 1, 1, 0, 0, 0, 0, 1, 1, 1, 1, // c0 to cf
    0, 0, 0, 0, 3, 1, 1, 3, 0, 0, 0, 10, 3, 1, 1, 0, // d0 to df
    0, 0, 0, 0, 0, 0, 0, 0, 0, 0, 0, 0, 0, 0, 0, 0, // e0 to ef
    0, 0, 0, 0, 0, 0, 0, 0, 0, 0, 0, 0, 0, 0, 0, 0, // f0 to ff
];

// By reference, since a table that is named in an index is laid out anew at each call.
fn firsts() -> &'static [u8]
    ensures { result.now ≡ FIRSTS }
{
    &FIRSTS
}

fn counts() -> &'static [u8]
    ensures { result.now ≡ COUNTS }
{
    &COUNTS
}

/// The rows that have the opcode; none where it is not in the table.
pub fn rows_at(opcode: u8) -> &'static [Instr]
    ensures { result.now ≡ rows_of opcode }
{
    let first = firsts()[opcode as usize] as usize;
    let count = counts()[opcode as usize] as usize;
    &rows()[first..first + count]
}
