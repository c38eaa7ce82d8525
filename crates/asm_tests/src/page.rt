//! The examples of the page on assembly.
use crate::answers::{code_of, hex_of};
use crate::compared::same;
use crate::page_list::{EXAMPLES, REFUSALS};
use assembler::assemble;
use std::test::Fail;

#[test]
fn each_example_has_its_bytes(rt: HostRuntime) -> Result<(), Fail> {
    for (text, hex) in EXAMPLES {
        let code = code_of(rt.alloc(), text)?;
        same!(rt; hex_of(rt.alloc(), code.as_slice())?.as_str(), *hex, text);
    }
    Ok(())
}

#[test]
fn each_refusal_is_answered(rt: HostRuntime) -> Result<(), Fail> {
    for (text, want) in REFUSALS {
        match assemble(rt.alloc(), text) {
            Ok(_) => return Err(Fail::new("the text is taken")),
            Err(e) => {
                let told = format!(in rt.alloc(); "{e}")?;
                same!(rt; told.as_str(), *want, text);
            }
        }
    }
    Ok(())
}
