//! The first pass finds the slot of each label, so that the second can make jumps to labels that come later.
ghost use Rattle.std.specs.Prelude.{◌≡◌, ◌≤◌, ◌+◌, ◌<◌, ◌^◌, MatchResult, Some, None, Ok, length, OnOk, IfOk, IfErr, OnErr};
ghost use Rattle.std.specs.Str.Lines.{lines};
ghost use Rattle.asm_text.specs.Tokens.{tokens};
ghost use Rattle.asm_grammar.specs.Views.{look_in, label_seen, AllBelow};
ghost use Rattle.asm_grammar.specs.Reading.{line_says};
ghost use Rattle.assembler.specs.Passes.{wrong, refused, with_label, with_instr, nowhere, outlined, assembled, meaning, Gives};

use crate::error::AsmError;
use crate::lines::next_line;
use asm_grammar::{Labels, Why, outline, read_line};
use isa_table::Instr;
use std::alloc::Global;
use std::collections::BTreeMap;

/// The most slots that a text may have, as a loader takes them.
const SLOT_LIMIT: usize = 4096;

/// What is wrong with a line, if anything.
fn complaint<'a>(labels: &Labels<'a>, n: usize, line: &'a [u8]) -> Option<Why>
    requires slots { AllBelow labels.now }
    requires n { n ≤ 4096 }
    ensures { result ≡ wrong (look_in labels.now) n (tokens line.now) }
{
    match read_line(labels, n, line) {
        Ok(_) => {}
        Err(Why::Label) => {}
        Err(why) => return Some(why),
    }
    let (label, slots) = outline(line);
    if let Some(name) = label {
        if labels.contains_key(name) {
            return Some(Why::TwiceLabel);
        }
    }
    if n + slots > SLOT_LIMIT {
        return Some(Why::TooLong);
    }
    None
}

/// Notes a label.
fn enter<'a>(labels: &mut Labels<'a>, label: Option<&'a [u8]>, n: usize) -> Result<(), AsmError>
    requires slots { AllBelow labels.old }
    requires n { n ≤ 4096 }
    ensures labels { OnOk result (look_in labels.new ≡ with_label (look_in labels.old) (label_seen label.entry) n) }
    ensures slots { OnOk result (AllBelow labels.new) }
    ensures memory { IfErr result (λ e. e ≡ refused 0 Why.Memory) }
{
    match label {
        None => Ok(()),
        Some(name) => match labels.insert(name, n) {
            Ok(_) => Ok(()),
            Err(_) => Err(AsmError {
                line: 0,
                why: Why::Memory,
            }),
        },
    }
}

/// Which slot each label stands for.
fn outline_all<'a>(alloc: Global, text: &'a [u8]) -> Result<Labels<'a>, AsmError>
    ensures labels { Gives look_in result (outlined 1 nowhere 0 (lines text.now)) }
    ensures slots { IfOk result AllBelow }
{
    let mut labels = BTreeMap::new(alloc);
    let mut rest = text;
    let mut number = 0;
    let mut slot = 0;
    while let Some(line) = next_line(&mut rest) {
        number += 1;
        if let Some(why) = complaint(&labels, slot, line) {
            return Err(AsmError { line: number, why });
        }
        let (label, slots) = outline(line);
        enter(&mut labels, label, slot)?;
        slot += slots;
    }
    Ok(labels)
}

/// Adds the instruction of a line, if it has one.
fn keep(code: &mut Vec<Instr>, said: Option<Instr>) -> Result<(), AsmError>
    ensures kept { OnOk result (code.new.items ≡ with_instr said code.old.items) }
    ensures memory { IfErr result (λ e. e ≡ refused 0 Why.Memory) }
{
    match said {
        None => Ok(()),
        Some(i) => match code.push(i) {
            Ok(()) => Ok(()),
            Err(_) => Err(AsmError {
                line: 0,
                why: Why::Memory,
            }),
        },
    }
}

/// The instructions of the lines.
fn assemble_all<'a>(
    alloc: Global,
    text: &'a [u8],
    labels: &Labels<'a>,
) -> Result<Vec<Instr>, AsmError>
    requires outlined { outlined 1 nowhere 0 (lines text.now) ≡ Ok (look_in labels.now) }
    requires slots { AllBelow labels.now }
    ensures { Gives (λ v. v.items) result (assembled 1 (look_in labels.now) 0 (lines text.now)) }
{
    let mut code = Vec::new(alloc);
    let mut rest = text;
    let mut number = 0;
    let mut slot = 0;
    while let Some(line) = next_line(&mut rest) {
        number += 1;
        let said = match read_line(labels, slot, line) {
            Ok(said) => said,
            Err(why) => return Err(AsmError { line: number, why }),
        };
        keep(&mut code, said)?;
        let (_, slots) = outline(line);
        slot += slots;
    }
    Ok(code)
}

/// The instructions that a text spells, or the least line in which something is wrong, and the least reason there.
pub fn assemble(alloc: Global, text: &str) -> Result<Vec<Instr>, AsmError>
    ensures { Gives (λ v. v.items) result (meaning text.now) }
{
    assemble_bytes(alloc, text.as_bytes())
}

/// The same of bytes, which need not be UTF-8. A byte above 127 begins no token.
pub fn assemble_bytes(alloc: Global, bytes: &[u8]) -> Result<Vec<Instr>, AsmError>
    ensures { Gives (λ v. v.items) result (meaning bytes.now) }
{
    let labels = outline_all(alloc, bytes)?;
    assemble_all(alloc, bytes, &labels)
}
