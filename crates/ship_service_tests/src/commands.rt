//! Replies of each command.

use crate::stage::{Lines, NOTHING, PLAIN, Setting, answers};
use std::test::Fail;

const OBJECT_LINES: Lines<'static> = (
    b"put 1 7 0102\nput 2 0 00\nget 1 8 1\nget 1024 0 1\nput 1 0 2\nget 1 0 8\nleave 2\nreturn 2\nleave 1\nreturn 1\n",
    b"outside\noutside\noutside\noutside\nbad\nbytes 0000000000000000\nnone\nnone\nasked 1\nasked 1\n",
);

const UNSERVED: Lines<'static> = (
    b"free 1\nleft 1\nreturned 1\nmake 8\nfree 0\nleft 1025\nmake 0\nreturned\n",
    b"unserved\nunserved\nunserved\nunserved\nbad\nbad\nbad\nbad\n",
);

#[test]
fn objects(rt: HostRuntime) -> Result<(), Fail> {
    answers(&rt, rt.alloc(), &PLAIN, [OBJECT_LINES, UNSERVED])?;
    Ok(())
}

/// mov r0, 7 · add r0, 1 · exit
const COUNT: Setting<'static> = Setting {
    code: &[
        0xb700_0000_0700_0000,
        0x0700_0000_0100_0000,
        0x9500_0000_0000_0000,
    ],
    ..PLAIN
};

const DEBUGGED: Lines<'static> = (
    b"break 1 1\nstep 1\nstep 1\none 1\nregs 1\nresume 1\nresume 1\nstep 1\nout 1\n",
    b"ok\n\
        ran 1 1\n\
        paused 1 1\n\
        ran 1 2\n\
        regs 1 2 8 paused 0000000000000008 0000000000000000 0000000000000000 0000000000000000 0000000000000000 \
        0000000000000000 0000000000000000 0000000000000000 0000000000000000 0000000000000000 ffffffff00001000\n\
        ok\n\
        notpaused\n\
        stopped 1 exit 0000000000000008\n\
        out 1\n",
);

const DEBUGGED_THEN: Lines<'static> = (
    b"unbreak 1 1\nunbreak 1 1\nbreak 1 3\nline 1 0\nline 1 3\nstack 1 4090 8\nunwatch 1 0 1\nwatch 1 0x1ffffffff 2\nregs 3\none 49\n",
    b"ok\nnoslot\nnoslot\nline 1 0 mov r0, 7\nnoslot\noutside\nnowatch\noutside\nnone\nbad\n",
);

#[test]
fn a_debugged_machine(rt: HostRuntime) -> Result<(), Fail> {
    answers(&rt, rt.alloc(), &COUNT, [DEBUGGED, DEBUGGED_THEN])?;
    Ok(())
}

/// stxb [r1+2], r2 · exit, with the address of object 1 in R1
const STORE: Setting<'static> = Setting {
    code: &[0x7321_0200_0000_0000, 0x9500_0000_0000_0000],
    arguments: [0x0000_0001_0000_0000, 5, 0, 0, 0],
    ..PLAIN
};

const WATCHED: Lines<'static> = (
    b"watch 1 0x100000002 1\nstep 1\nstep 1\nget 1 0 4\nunwatch 1 0x100000002 1\nresume 1\nstep 1\n",
    b"ok\nhit 1 1\npaused 1 1\nbytes 00000500\nok\nok\nstopped 1 exit 0000000000000000\n",
);

#[test]
fn a_watched_range(rt: HostRuntime) -> Result<(), Fail> {
    answers(&rt, rt.alloc(), &STORE, [WATCHED, NOTHING])?;
    Ok(())
}

const SHIPPED: Lines<'static> = (
    b"step 1\nship 1 0 0 0 0 0 9500\nship 1 0 0 0 0 0 9500000000000000\nship2 1 0 0 0 0 0 9500000000000000 r1\nstep 2\nstep 2\nstep 3\n",
    b"none\nrefused 0 Short\nshipped 1\nshipped 2\nstopped 2 exit 0000000000000000\nstopped 2 exit 0000000000000000\nnone\n",
);

#[test]
fn shipped_machines(rt: HostRuntime) -> Result<(), Fail> {
    answers(&rt, rt.alloc(), &PLAIN, [SHIPPED, NOTHING])?;
    Ok(())
}
