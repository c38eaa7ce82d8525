//! Every form, assembled, printed and assembled again.
use crate::answers::{code_of, hex_of, spelling_of};
use crate::compared::same;
use crate::form_list::{ARITHMETIC, ARITHMETIC_32, ATOMICS, JUMPS, LOADS, OTHERS, STORES};
use std::alloc::Global;
use std::test::Fail;

/// Whether each line has these bytes, is its own canonical spelling, and is read from that again.
fn all_agree(alloc: Global, forms: &[(&str, &str)]) -> Result<bool, Fail> {
    for (text, hex) in forms {
        let code = code_of(alloc, text)?;
        let told = spelling_of(alloc, code.as_slice())?;
        let line = format!(in alloc; "{text}\n")?;
        let again = code_of(alloc, line.as_str())?;
        let bytes = hex_of(alloc, code.as_slice())?;
        if bytes.as_str() != *hex
            || told.as_slice() != line.as_bytes()
            || hex_of(alloc, again.as_slice())?.as_str() != *hex
        {
            return Ok(false);
        }
    }
    Ok(true)
}

#[test]
fn arithmetic(rt: HostRuntime) -> Result<(), Fail> {
    same!(rt; all_agree(rt.alloc(), ARITHMETIC)?, true);
    same!(rt; all_agree(rt.alloc(), ARITHMETIC_32)?, true);
    Ok(())
}

#[test]
fn memory(rt: HostRuntime) -> Result<(), Fail> {
    same!(rt; all_agree(rt.alloc(), LOADS)?, true);
    same!(rt; all_agree(rt.alloc(), STORES)?, true);
    same!(rt; all_agree(rt.alloc(), ATOMICS)?, true);
    Ok(())
}

#[test]
fn jumps_and_others(rt: HostRuntime) -> Result<(), Fail> {
    same!(rt; all_agree(rt.alloc(), JUMPS)?, true);
    same!(rt; all_agree(rt.alloc(), OTHERS)?, true);
    Ok(())
}
