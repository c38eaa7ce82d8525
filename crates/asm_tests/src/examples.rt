//! The programs of examples/.
use crate::answers::{code_of, hex_of};
use crate::compared::same;
use crate::example_list::EXAMPLES;
use std::test::Fail;

#[test]
fn each_example_is_its_code(rt: HostRuntime) -> Result<(), Fail> {
    for (text, hex) in EXAMPLES {
        let code = code_of(rt.alloc(), text)?;
        same!(rt; hex_of(rt.alloc(), code.as_slice())?.as_str(), *hex, text);
    }
    Ok(())
}
