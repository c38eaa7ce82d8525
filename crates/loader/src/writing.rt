//! Writes code.
ghost use Rattle.std.specs.Prelude.{◌≡◌, ◌++◌, OnOk, IfOk};
ghost use Rattle.bpf_codec.specs.Slots.{encoding};
ghost use Rattle.loader.specs.Instructions.{encodings};

use bpf_codec::encode;
use isa_table::Instr;
use std::alloc::{AllocError, Global};

/// Adds the encoding of an instruction.
fn put_encoding(code: &mut Vec<u8>, i: &Instr) -> Result<(), AllocError>
    ensures { OnOk result (code.new.items ≡ code.old.items ++ encoding i.now) }
{
    let (bytes, slots) = encode(i);
    code.extend_from_slice(&bytes[..8 * slots])
}

/// The encodings of the instructions, one after the other. The code is valid if [`load`](crate::load) takes it.
pub fn encode_all(alloc: Global, instrs: &[Instr]) -> Result<Vec<u8>, AllocError>
    ensures { IfOk result (λ code. code.items ≡ encodings instrs.now) }
{
    let mut code = Vec::new(alloc);
    for i in instrs {
        put_encoding(&mut code, i)?;
    }
    Ok(code)
}
