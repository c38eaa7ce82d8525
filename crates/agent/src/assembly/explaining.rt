//! What `asm --explain` says beside the line of an error.
ghost use Rattle.std.specs.Prelude.{◌≤◌, ◌+◌, length};
ghost use Rattle.arrayvec.specs.ArrayVec.{array_vec_len};

use crate::failure::Failure;
use asm_grammar::{Wanted, blamed_token, wanted_in};
use asm_table::Sort;
use assembler::{Why, line_at};
use streams::Line;

/// How many bytes are quoted at most.
const QUOTE_LIMIT: usize = 200;

/// An explanation: two quotes, a number, the words between, and what would fit.
pub(crate) type Explanation = Line<592>;

/// Adds bytes in quotes, as many of them as are quoted.
fn quote(out: &mut Explanation, bytes: &[u8])
    requires { array_vec_len out.old + 202 ≤ 592 }
    ensures { array_vec_len out.new ≤ array_vec_len out.old + 202 }
{
    out.push(b'\'');
    out.put(&bytes[..QUOTE_LIMIT.min(bytes.len())]);
    out.push(b'\'');
}

/// An operand of this sort.
fn operand_text(sort: Sort) -> &'static [u8]
    ensures { length result.now ≤ 60 }
{
    match sort {
        Sort::Imm | Sort::Imm64 => b"a number",
        Sort::Target | Sort::LongTarget => b"a label, or a number with a sign,",
        Sort::Register => b"a register, r0 to r10,",
        Sort::RegisterOrImm => b"a register or a number",
        Sort::Memory => b"a place in memory, such as [r1+8],",
    }
}

/// The numbers that an operand of this sort may have.
fn range_text(sort: Sort) -> &'static [u8]
    ensures { length result.now ≤ 60 }
{
    match sort {
        Sort::Register => b"a register, r0 to r10,",
        Sort::RegisterOrImm | Sort::Imm => b"a number from -2147483648 to 2147483647",
        Sort::Memory | Sort::Target => b"an offset from -32768 to 32767",
        Sort::Imm64 => b"a number from -9223372036854775808 to 18446744073709551615",
        Sort::LongTarget => b"an offset from -2147483648 to 2147483647",
    }
}

/// What would fit: with the range of a number, or without.
fn place_text(ranges: bool, wanted: Wanted) -> &'static [u8]
    ensures { length result.now ≤ 60 }
{
    match wanted {
        Wanted::Token => b"a name, a number or one of :,[]+- in ASCII",
        Wanted::Mnemonic => b"a mnemonic",
        Wanted::Comma => b"a comma",
        Wanted::Operand(sort) => {
            if ranges {
                range_text(sort)
            } else {
                operand_text(sort)
            }
        }
        Wanted::End => b"the line's end",
    }
}

/// What would fit in place of the token that the reason is about.
fn fitting_text(why: Why, wanted: Wanted) -> &'static [u8]
    ensures { length result.now ≤ 60 }
{
    match why {
        Why::Word | Why::Operand => place_text(false, wanted),
        Why::Range => place_text(true, wanted),
        Why::Label => b"a label of the text",
        Why::TwiceLabel => b"a label of no other line",
        Why::TooLong => b"no instruction after 4096 slots",
        Why::Memory => b"",
    }
}

/// Says what would fit.
fn say_fitting(out: &mut Explanation, line: &[u8], why: Why)
    requires { array_vec_len out.old ≤ 512 }
{
    out.put(b", where ");
    out.put(fitting_text(why, wanted_in(line, why)));
    out.put(b" fits");
}

/// Which token of a line is meant.
fn token_text(line: &[u8], start: usize, end: usize) -> Explanation
    requires order { start ≤ end }
    requires bound { end ≤ length line.now }
    ensures { array_vec_len result ≤ 512 }
{
    let mut out = Explanation::new();
    out.put(b"column ");
    out.put_decimal(start + 1);
    out.put(b": ");
    quote(&mut out, &line[start..end]);
    out.put(b" in ");
    quote(&mut out, line);
    out
}

/// That a line ends too early.
fn end_text(line: &[u8]) -> Explanation
    ensures { array_vec_len result ≤ 512 }
{
    let mut out = Explanation::new();
    out.put(b"at the end of ");
    quote(&mut out, line);
    out
}

/// Which token of a line this reason is about.
fn blamed_text(line: &[u8], why: Why) -> Explanation
    ensures { array_vec_len result ≤ 512 }
{
    match blamed_token(line, why) {
        Some((start, end)) => token_text(line, start, end),
        None => end_text(line),
    }
}

/// What is said of the line in which a text is wrong: its token, and what would fit there. Of another outcome nothing is said.
pub(crate) fn explanation(outcome: Result<(), Failure>, text: &[u8]) -> Explanation {
    let Err(Failure::WrongLine(error)) = outcome else {
        return Explanation::new();
    };
    let line = line_at(text, error.line.saturating_sub(1)).unwrap_or_default();
    let mut out = blamed_text(line, error.why);
    say_fitting(&mut out, line, error.why);
    out
}
