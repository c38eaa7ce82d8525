//! Registers by their names.
ghost use Rattle.std.specs.Prelude.{◌≡◌, ◌≤◌, length};
ghost use Rattle.asm_table.specs.Names.{register_name, register_named};

use isa_table::{Reg, registers};

/// `r0` to `r10`.
pub fn register_name(r: Reg) -> &'static [u8]
    ensures name { result.now ≡ register_name r }
    ensures short { length result.now ≤ 3 }
{
    match r {
        Reg::R0 => b"r0",
        Reg::R1 => b"r1",
        Reg::R2 => b"r2",
        Reg::R3 => b"r3",
        Reg::R4 => b"r4",
        Reg::R5 => b"r5",
        Reg::R6 => b"r6",
        Reg::R7 => b"r7",
        Reg::R8 => b"r8",
        Reg::R9 => b"r9",
        Reg::R10 => b"r10",
    }
}

/// The register of this name.
pub fn register_named(word: &[u8]) -> Option<Reg>
    ensures { result ≡ register_named word.now }
{
    for r in registers() {
        if register_name(*r) == word {
            return Some(*r);
        }
    }
    None
}
