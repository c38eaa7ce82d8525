//! Code is checked, assembled and shown, without an agent.
ghost use Rattle.std.specs.Prelude.{◌≡◌, Option, Result, List, ℕ, Ok, Err, IfOk, IfErr};
ghost use Rattle.asm_grammar.specs.Reasons.{why_number};
ghost use Rattle.assembler.specs.declared.error.AsmError.{AsmError};
ghost use Rattle.loader.specs.declared.loading.LoadError.{LoadError};
ghost use Rattle.bpfagent_c.specs.declared.texts.LineError.{LineError};
ghost use Rattle.bpfagent_c.specs.Codes.{code_of_text};
ghost use Rattle.bpfagent_c.specs.Texts.{Assembles, Checks, Lines, code_of_assembly, code_of_check, code_of_line, found_count, found_over, refusal_of_check};
ghost use Rattle.bpfagent_c.specs.Texts.{wrong_by, wrong_of};

use crate::codes::{code_of_text, code_of_why};
use crate::numbers::{NOMEM, NOSLOT, OK, REFUSED};
use crate::shown::{Refusal, write_bytes};
use asm_grammar::Why as WrongText;
use assembler::{AsmError, assemble_bytes};
use disassembler::line;
use loader::{LoadError, Why, encode_all, load};
use std::alloc::Global;

/// Why a text isn't assembly.
#[repr(C)]
#[derive(Clone, Copy, Drop)]
pub struct WrongLine {
    /// The line, counted from 1.
    pub line: u64,
    /// The reason's number.
    pub reason: u32,
}

/// Why an instruction isn't shown.
#[derive(Clone, Copy, Drop)]
pub(crate) enum LineError {
    /// The code isn't valid.
    Refused,
    /// No instruction begins at the slot.
    NoSlot,
    /// Out of memory.
    Memory,
}

// ---- code

/// What is wrong with code, if anything is.
fn fault_of(alloc: Global, code: &[u8]) -> Option<LoadError>
    ensures { Checks code.now result }
{
    match load(alloc, code) {
        Ok(_) => None,
        Err(error) => Some(error),
    }
}

impl Refusal {
    /// Writes what is wrong with code, but where memory ran out, and tells its number.
    fn tell(&mut self, found: Option<LoadError>) -> u32
        ensures number { result ≡ code_of_check found }
        ensures written { self.new ≡ refusal_of_check found self.old }
    {
        let Some(error) = found else {
            return OK;
        };
        if error.why != Why::Memory {
            *self = Refusal::of(&error);
        }
        code_of_why(error.why)
    }
}

/// Tells whether code is valid, and what is wrong with it where it isn't.
#[unsafe(no_mangle)]
pub extern "C" fn bpfagent_check(alloc: Global, code: &[u8], refusal: &mut Refusal) -> u32
    ensures { (found : Option LoadError) × Checks code.now found × (result ≡ code_of_check found) × (refusal.new ≡ refusal_of_check found refusal.old) }
{
    let found = fault_of(alloc, code);
    refusal.tell(found)
}

// ---- assembly

/// The code that a text spells.
fn assembled(alloc: Global, text: &[u8]) -> Result<Vec<u8>, AsmError>
    ensures ok { IfOk result (λ code. Assembles text.now (Ok code.items)) }
    ensures err { IfErr result (λ error. Assembles text.now (Err error)) }
{
    let instrs = match assemble_bytes(alloc, text) {
        Ok(instrs) => instrs,
        Err(error) => return Err(error),
    };
    match encode_all(alloc, instrs.as_slice()) {
        Ok(code) => Ok(code),
        Err(_) => Err(AsmError {
            line: 0,
            why: WrongText::Memory,
        }),
    }
}

impl WrongLine {
    /// Writes what is wrong with a text, but where memory ran out, and tells its number.
    fn tell(&mut self, error: &AsmError) -> u32
        ensures number { result ≡ code_of_text error.now.why }
        ensures written { self.new ≡ wrong_by error.now.why error.now.line self.old }
    {
        if error.why != WrongText::Memory {
            *self = WrongLine {
                line: error.line as u64,
                reason: error.why.number() as u32,
            };
        }
        code_of_text(error.why)
    }
}

/// Turns assembly into code: as many bytes as there is room for, and how many it has.
#[unsafe(no_mangle)]
pub extern "C" fn bpfagent_assemble(
    alloc: Global,
    text: &[u8],
    code: &mut [u8],
    count: &mut usize,
    wrong: &mut WrongLine,
) -> u32
    ensures { (found : Result (List ℕ) AsmError) × Assembles text.now found × (result ≡ code_of_assembly found) × (code.new ≡ found_over found code.old)
        × (count.new ≡ found_count found count.old) × (wrong.new ≡ wrong_of found wrong.old) }
{
    match assembled(alloc, text) {
        Ok(found) => {
            write_bytes(code, found.as_slice());
            *count = found.len();
            OK
        }
        Err(error) => wrong.tell(&error),
    }
}

// ---- lines

/// The line of the instruction at a slot of the code.
fn line_at(alloc: Global, code: &[u8], slot: u32) -> Result<Vec<u8>, LineError>
    ensures ok { IfOk result (λ text. Lines code.now slot (Ok text.items)) }
    ensures err { IfErr result (λ error. Lines code.now slot (Err error)) }
{
    let program = match load(alloc, code) {
        Ok(program) => program,
        Err(error) if error.why == Why::Memory => return Err(LineError::Memory),
        Err(_) => return Err(LineError::Refused),
    };
    let Some(instr) = program.at(slot as usize) else {
        return Err(LineError::NoSlot);
    };
    let mut text = Vec::new(alloc);
    match line(&instr, &mut text) {
        Ok(()) => Ok(text),
        Err(_) => Err(LineError::Memory),
    }
}

/// The number for an instruction that isn't shown.
fn code_of_error(error: LineError) -> u32
    ensures { result ≡ code_of_line (Err error) }
{
    match error {
        LineError::Refused => REFUSED,
        LineError::NoSlot => NOSLOT,
        LineError::Memory => NOMEM,
    }
}

/// The instruction at a slot of code, as assembly without a line end: as many bytes as there is room for, and how many it has.
#[unsafe(no_mangle)]
pub extern "C" fn bpfagent_text(
    alloc: Global,
    code: &[u8],
    slot: u32,
    text: &mut [u8],
    count: &mut usize,
) -> u32
    ensures { (found : Result (List ℕ) LineError) × Lines code.now slot found × (result ≡ code_of_line found) × (text.new ≡ found_over found text.old)
        × (count.new ≡ found_count found count.old) }
{
    match line_at(alloc, code, slot) {
        Ok(found) => {
            write_bytes(text, found.as_slice());
            *count = found.len();
            OK
        }
        Err(error) => code_of_error(error),
    }
}
