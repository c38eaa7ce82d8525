//! All operands of an instruction.
ghost use Rattle.std.specs.Prelude.{◌≡◌, ◌≤◌, ◌<◌, ◌+◌, ◌-ℤ◌, pos, ℕ, Some, None, true, if◌then◌else◌, MatchOption, length};
ghost use Rattle.arrayvec.specs.ArrayVec.{array_vec_len};
ghost use Rattle.asm_text.specs.Tokens.{lexemes_left};
ghost use Rattle.asm_grammar.specs.Writing.{written_seen};
ghost use Rattle.asm_grammar.specs.Sorts.{operand_taken, distance};
ghost use Rattle.asm_grammar.specs.Reading.{added, gather_operands, nothing};
ghost use Rattle.asm_grammar.specs.Views.{gathered_seen, look_in, AllBelow};

use crate::reading::next_operand;
use crate::taking::{Taken, take};
use crate::written::Written;
use asm_table::{AsmOperand, Operands, Sort};
use asm_text::Tokens;
use std::collections::BTreeMap;

/// Which slot each label stands for.
pub type Labels<'a> = BTreeMap<&'a [u8], usize>;

/// What was read so far.
#[derive(Drop)]
pub struct Gathered {
    pub operands: Operands,
    pub out: bool,
    pub unknown: bool,
}

/// From the slot after slot n to a label's.
fn distance(to: usize, n: usize) -> i16
    requires to { to ≤ 4096 }
    requires n { n ≤ 4096 }
    ensures { result ≡ distance to n }
{
    (to as i32 - (n as i32 + 1)) as i16
}

impl Gathered {
    pub fn new() -> Gathered
        ensures { gathered_seen result ≡ nothing }
    {
        Gathered {
            operands: Operands::new(),
            out: false,
            unknown: false,
        }
    }

    /// Adds an operand, if it has the sort's form. In the place of a label that stands nowhere goes the offset 0.
    fn add<'a>(&mut self, labels: &Labels<'a>, n: usize, sort: Sort, w: Written<'a>) -> bool
        requires room { array_vec_len self.old.operands < 3 }
        requires slots { AllBelow labels.now }
        requires n { n ≤ 4096 }
        ensures added { added (look_in labels.now) n (gathered_seen self.old) (operand_taken sort (written_seen w.entry))
            ≡ (if result then Some (gathered_seen self.new) else None) }
        ensures len { array_vec_len self.new.operands ≤ array_vec_len self.old.operands + 1 }
    {
        match take(sort, w) {
            Taken::No => false,
            Taken::Out => {
                self.out = true;
                true
            }
            Taken::Is(o) => {
                self.operands.push(o);
                true
            }
            Taken::To(name) => {
                match labels.get(name) {
                    Some(slot) => self.operands.push(AsmOperand::Offset(distance(*slot, n))),
                    None => {
                        self.unknown = true;
                        self.operands.push(AsmOperand::Offset(0));
                    }
                }
                true
            }
            Taken::LongTo(name) => {
                match labels.get(name) {
                    Some(slot) => self
                        .operands
                        .push(AsmOperand::LongOffset(i32::from(distance(*slot, n)))),
                    None => {
                        self.unknown = true;
                        self.operands.push(AsmOperand::LongOffset(0));
                    }
                }
                true
            }
        }
    }
}

/// The operands that the tokens are, one for each sort.
pub fn gather<'a>(
    tokens: &mut Tokens<'a>,
    labels: &Labels<'a>,
    n: usize,
    sorts: &[Sort],
) -> Option<Gathered>
    requires few { length sorts.now ≤ 3 }
    requires slots { AllBelow labels.now }
    requires n { n ≤ 4096 }
    ensures { MatchOption result (gather_operands (look_in labels.now) n true nothing sorts.now (lexemes_left tokens.old) ≡ None)
        (λ g. gather_operands (look_in labels.now) n true nothing sorts.now (lexemes_left tokens.old) ≡ Some (gathered_seen g)) }
{
    let mut g = Gathered::new();
    for i in 0..sorts.len() {
        let w = next_operand(tokens, i == 0)?;
        if !g.add(labels, n, sorts[i], w) {
            return None;
        }
    }
    match tokens.next() {
        Some(_) => None,
        None => Some(g),
    }
}
