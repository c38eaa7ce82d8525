//! What the calls answer, as texts that a test compares.
use assembler::{AsmError, Why, assemble};
use bpf_codec::encode;
use disassembler::line;
use isa_table::Instr;
use std::alloc::{AllocError, Global};
use std::test::Fail;

pub fn code_of(alloc: Global, text: &str) -> Result<Vec<Instr>, Fail> {
    match assemble(alloc, text) {
        Ok(code) => Ok(code),
        Err(_) => Err(Fail::new("the text is refused")),
    }
}

/// The bytes of the instructions, in hex.
pub fn hex_of(alloc: Global, code: &[Instr]) -> Result<String, AllocError> {
    let mut hex = String::new(alloc);
    for i in code {
        let (bytes, count) = encode(i);
        for k in 0..count * 8 {
            if let Some(b) = bytes.get(k) {
                hex.push_str(format!(in alloc; "{b:02x}")?.as_str())?;
            }
        }
    }
    Ok(hex)
}

/// The canonical spelling of the instructions, each line with its end.
pub fn spelling_of(alloc: Global, code: &[Instr]) -> Result<Vec<u8>, AllocError> {
    let mut text = Vec::new(alloc);
    for i in code {
        line(i, &mut text)?;
        text.push(b'\n')?;
    }
    Ok(text)
}

pub fn refusal(alloc: Global, text: &str) -> Option<AsmError> {
    assemble(alloc, text).err()
}

pub fn at(line: usize, why: Why) -> Option<AsmError> {
    Some(AsmError { line, why })
}
