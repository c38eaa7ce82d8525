//! `run`: objects that move under machines, and machines that are debugged.

use crate::outcome::leaves;
use std::alloc::Global;
use std::process::Abort;

/// `run` answers so to these lines.
fn answers(rt: &impl Abort, alloc: Global, input: &str, output: &str) {
    let wanted: (u8, &[u8], &[u8]) = (0, output.as_bytes(), b"");
    leaves(rt, alloc, &["run"], input.as_bytes(), wanted);
}

#[test]
fn an_object_in_scope_stays_and_comes_back_with_its_bytes(rt: HostRuntime) {
    let input = "make 8
ship 10 0x100000000 1 0 0 0 db21000000000000db210000000000009500000000000000
ship 10 0x100000000 1 0 0 0 db21000000000000db210000000000009500000000000000
step 1
leave 1
left 1
step 2
step 2
step 1
step 1
step 2
leave 1
get 1 0 8
put 1 0 00
left 1
return 1
returned 1
get 1 0 8
";
    let output = "made 1
shipped 1
shipped 2
ran 1 1
kept 1 scoped
place 1 here
ran 2 1
ran 2 2
ran 1 2
stopped 1 exit 0000000000000000
stopped 2 exit 0000000000000000
leaving 1
away 1
away 1
left 1
returning 1
home 1
bytes 0400000000000000
";
    answers(&rt, rt.alloc(), input, output);
}

#[test]
fn a_machine_waits_until_its_object_is_home(rt: HostRuntime) {
    let input = "make 8
ship 10 0x100000000 0 0 0 0 7110000000000000850000000400000071100000000000009500000000000000
step 1
leave 1
step 1
leave 1
step 1
step 1
one 1
regs 1
free 1
left 1
return 1
returned 1
step 1
";
    let output = "made 1
shipped 1
ran 1 1
kept 1 scoped
ran 1 2
leaving 1
waiting 1 1
waiting 1 1
waiting 1 1
regs 1 2 8 run 0000000000000000 0000000100000000 0000000000000000 0000000000000000 0000000000000000 \
    0000000000000000 0000000000000000 0000000000000000 0000000000000000 0000000000000000 ffffffff00001000
place 1 leaving
left 1
returning 1
home 1
ran 1 3
";
    answers(&rt, rt.alloc(), input, output);
}

#[test]
fn a_machine_pauses_at_a_breakpoint(rt: HostRuntime) {
    let input = "ship 10 0 0 0 0 0 b70000000700000007000000010000009500000000000000
resume 1
break 1 1
break 1 3
unbreak 1 0
step 1
step 1
one 1
regs 1
resume 1
step 1
one 1
resume 2
";
    let output = "shipped 1
notpaused
ok
noslot
noslot
ran 1 1
paused 1 1
ran 1 2
regs 1 2 8 paused 0000000000000008 0000000000000000 0000000000000000 0000000000000000 0000000000000000 \
    0000000000000000 0000000000000000 0000000000000000 0000000000000000 0000000000000000 ffffffff00001000
ok
stopped 1 exit 0000000000000008
stopped 1 exit 0000000000000008
none
";
    answers(&rt, rt.alloc(), input, output);
}

#[test]
fn a_write_to_a_watched_byte_is_a_hit(rt: HostRuntime) {
    let input = "make 8
ship 10 0x100000000 5 0 0 0 73210200000000009500000000000000
watch 1 0x1ffffffff 2
watch 1 0x100000002 1
unwatch 1 0x100000002 2
step 1
step 1
get 1 0 4
unwatch 1 0x100000002 1
";
    let output = "made 1
shipped 1
outside
ok
nowatch
hit 1 1
paused 1 1
bytes 00000500
ok
";
    answers(&rt, rt.alloc(), input, output);
}
