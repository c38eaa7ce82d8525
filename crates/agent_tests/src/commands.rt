//! `commands`.

use crate::compared::same;
use crate::outcome::{ended, leaves};
use test_devices::Narrow;

/// What docs/PROTOCOL.md says of each command: 1024 objects of at most 65536 bytes, 48 machines, stacks of 4096 bytes, 4096 slots,
/// 4096 bytes at once, numbers up to 2^64 - 1, lines of 70000 bytes.
const TABLE: &str = "\
make 1-65536
free 1-1024
put 1-1024 0-65535 bytes-4096
get 1-1024 0-65535 1-4096
ship 0-18446744073709551615 0-18446744073709551615 0-18446744073709551615 0-18446744073709551615 0-18446744073709551615 0-18446744073709551615 bytes-70000
ship2 0-18446744073709551615 0-18446744073709551615 0-18446744073709551615 0-18446744073709551615 0-18446744073709551615 0-18446744073709551615 bytes-70000 grants
leave 1-1024
left 1-1024
return 1-1024
returned 1-1024
step 1-48
one 1-48
regs 1-48
out 1-48
stack 1-48 0-4095 1-4096
line 1-48 0-4095
break 1-48 0-4095
unbreak 1-48 0-4095
watch 1-48 0-18446744073709551615 1-4096
unwatch 1-48 0-18446744073709551615 1-4096
resume 1-48
";

#[test]
fn each_command_has_a_line(rt: HostRuntime) {
    let wanted: (u8, &[u8], &[u8]) = (0, TABLE.as_bytes(), b"");
    leaves(&rt, rt.alloc(), &["commands"], b"step 1\n", wanted);
}

#[test]
fn a_table_that_is_not_taken_is_a_write_fault(rt: HostRuntime) {
    let mut input = b"step 1\n".as_slice();
    let mut closed = Narrow::new(rt.alloc(), 1, 7);
    let (status, errors) = ended(rt.alloc(), &["commands"], &mut input, &mut closed);
    same!(rt; (status, errors.as_slice()), (3, b"write fault\n".as_slice()));
    same!(rt; closed.taken.as_slice(), b"make 1-".as_slice());
    same!(rt; input, b"step 1\n".as_slice());
}
