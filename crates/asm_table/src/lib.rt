//! Instructions as assembly: each one is a mnemonic and its operands. Assembler and disassembler meet here.
#![tactic(auto)]

mod building;
mod laws;
mod mnemonic;
mod named;
mod operands;
mod parts;
mod register;

pub use building::build;
pub use laws::{names_are_exact, parts_are_exact, registers_are_exact};
pub use mnemonic::{Mnemonic, Sort};
pub use operands::{AsmOperand, Operands};
pub use parts::{mnemonic_of, operands_of};
pub use register::{register_name, register_named};
