//! Single accesses.
use isa_table::{AtomicOp, Size, Width};
use memory::{Action, Op, act};
use std::test::Fail;

const SIZES: [(Size, u32); 4] = [
    (Size::Byte, 1),
    (Size::Half, 2),
    (Size::Word, 4),
    (Size::Double, 8),
];

fn load(offset: u32, size: Size) -> Op {
    Op {
        offset,
        action: Action::Load { size },
    }
}

fn store(offset: u32, size: Size, value: u64) -> Op {
    Op {
        offset,
        action: Action::Store { size, value },
    }
}

fn atomic(width: Width, op: AtomicOp, src: u64, r0: u64) -> Op {
    Op {
        offset: 0,
        action: Action::Atomic { width, op, src, r0 },
    }
}

/// The access, and the bytes after it.
fn done<const N: usize>(mut bytes: [u8; N], op: &Op) -> Option<(u64, [u8; N])> {
    if !op.is_inside(N) {
        return None;
    }
    let answer = act(&mut bytes, op);
    Some((answer, bytes))
}

#[test]
fn loads_the_lowest_byte_first(rt: HostRuntime) -> Result<(), Fail> {
    let bytes = [1, 2, 3, 4, 5, 6, 7, 8];
    for (size, value) in [
        (Size::Byte, 1),
        (Size::Half, 0x0201),
        (Size::Word, 0x0403_0201),
        (Size::Double, 0x0807_0605_0403_0201),
    ] {
        assert_eq!(rt; done(bytes, &load(0, size)), Some((value, bytes)));
    }
    Ok(())
}

#[test]
fn reaches_the_last_byte_and_no_further(rt: HostRuntime) -> Result<(), Fail> {
    for (size, count) in SIZES {
        let last = 9 - count;
        assert!(rt; store(last, size, u64::MAX).is_inside(9));
        assert!(rt; !store(last + 1, size, 0).is_inside(9));
        assert!(rt; !load(u32::MAX, size).is_inside(9));
        assert!(rt; !load(0, size).is_inside(0));
    }
    assert_eq!(rt;
        done([0; 9], &store(1, Size::Double, u64::MAX)),
        Some((0, [0, 0xff, 0xff, 0xff, 0xff, 0xff, 0xff, 0xff, 0xff]))
    );
    Ok(())
}

#[test]
fn an_object_of_one_byte(rt: HostRuntime) -> Result<(), Fail> {
    assert_eq!(rt; done([0], &store(0, Size::Byte, 0x1ff)), Some((0, [0xff])));
    assert_eq!(rt; done([0xff], &load(0, Size::Byte)), Some((0xff, [0xff])));
    assert_eq!(rt; done([0xff], &load(0, Size::Half)), None);
    assert_eq!(rt; done([0xff], &load(1, Size::Byte)), None);
    Ok(())
}

#[test]
fn a_store_keeps_its_neighbours(rt: HostRuntime) -> Result<(), Fail> {
    for (size, want) in [
        (Size::Byte, [9, 9, 9, 0x88, 9, 9, 9, 9, 9, 9, 9, 9]),
        (Size::Half, [9, 9, 9, 0x88, 0x77, 9, 9, 9, 9, 9, 9, 9]),
        (Size::Word, [9, 9, 9, 0x88, 0x77, 0x66, 0x55, 9, 9, 9, 9, 9]),
        (
            Size::Double,
            [9, 9, 9, 0x88, 0x77, 0x66, 0x55, 0x44, 0x33, 0x22, 0x11, 9],
        ),
    ] {
        let op = store(3, size, 0x1122_3344_5566_7788);
        assert_eq!(rt; done([9; 12], &op), Some((0, want)));
    }
    Ok(())
}

#[test]
fn exchanges_where_r0_is_found(rt: HostRuntime) -> Result<(), Fail> {
    let op = atomic(
        Width::W32,
        AtomicOp::CompareExchange,
        0x5566_7788,
        0xaaaa_aaaa_1122_3344,
    );
    let exchanged = [0x88, 0x77, 0x66, 0x55, 0, 0, 0, 0];
    assert_eq!(rt;
        done([0x44, 0x33, 0x22, 0x11, 0, 0, 0, 0], &op),
        Some((0x1122_3344, exchanged))
    );
    assert!(rt; op.action.writes(0x1122_3344));
    assert_eq!(rt; done(exchanged, &op), Some((0x5566_7788, exchanged)));
    assert!(rt; !op.action.writes(0x5566_7788));
    Ok(())
}

#[test]
fn atomics_of_32_bits_keep_the_upper_bytes(rt: HostRuntime) -> Result<(), Fail> {
    let add = atomic(Width::W32, AtomicOp::FetchAdd, 0xffff_ffff_0000_0002, 0);
    let added = [1, 0, 0, 0, 0xff, 0xff, 0xff, 0xff];
    assert_eq!(rt; done([0xff; 8], &add), Some((0xffff_ffff, added)));
    let exchange = atomic(Width::W64, AtomicOp::Exchange, 7, 0);
    assert_eq!(rt;
        done(added, &exchange),
        Some((0xffff_ffff_0000_0001, [7, 0, 0, 0, 0, 0, 0, 0]))
    );
    Ok(())
}
