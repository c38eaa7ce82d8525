//! What comes, however it is cut, and what came before a device failed; what a line has.

use crate::fault::{InputFault, ReadFault, WriteFault};
use crate::line::Line;
use crate::reading::{fill, read_at_most, skip};
use crate::writing::put_all;
use std::io::{Error, ErrorKind, Read, Result, Write};
use std::test::Fail;

/// A device that takes a byte a call, and then fails as an interrupted call does.
#[derive(Drop)]
struct Breaks {
    calls: usize,
    good: usize,
}

impl Breaks {
    /// Whether the call goes well.
    fn call(&mut self) -> Result<()> {
        self.calls = self.calls.saturating_add(1);
        if self.calls > self.good {
            return Err(Error::from(ErrorKind::Interrupted));
        }
        Ok(())
    }
}

impl Read for Breaks {
    fn read(&mut self, buf: &mut [u8]) -> Result<usize> {
        self.call()?;
        Ok(buf.len().min(1))
    }
}

impl Write for Breaks {
    fn write(&mut self, buf: &[u8]) -> Result<usize> {
        self.call()?;
        Ok(buf.len().min(1))
    }

    fn flush(&mut self) -> Result<()> {
        Ok(())
    }
}

#[test]
fn all_is_read_up_to_the_limit(rt: HostRuntime) -> std::result::Result<(), Fail> {
    let mut reader = b"abc".as_slice().chain(b"def".as_slice());
    assert_eq!(rt;
        read_at_most(rt.alloc(), &mut reader, 5)?.as_slice(),
        b"abcde".as_slice()
    );
    assert_eq!(rt;
        read_at_most(rt.alloc(), &mut reader, 5)?.as_slice(),
        b"f".as_slice()
    );
    Ok(())
}

#[test]
fn a_buffer_is_filled_from_pieces(rt: HostRuntime) {
    let mut reader = b"abc".as_slice().chain(b"def".as_slice());
    let mut buffer = [0u8; 4];
    assert_eq!(rt; fill(&mut reader, &mut buffer), Ok(4));
    assert_eq!(rt; buffer, *b"abcd");
    assert_eq!(rt; fill(&mut reader, &mut buffer), Ok(2));
    assert_eq!(rt; buffer, *b"efcd");
    assert_eq!(rt; fill(&mut reader, &mut buffer), Ok(0));
}

#[test]
fn bytes_are_dropped_in_pieces(rt: HostRuntime) {
    let bytes = [7u8; 9000];
    let mut reader = bytes.as_slice();
    assert_eq!(rt; skip(&mut reader, 8999), Ok(8999));
    assert_eq!(rt; skip(&mut reader, 2), Ok(1));
    assert_eq!(rt; skip(&mut reader, 0), Ok(0));
}

#[test]
fn the_first_error_ends_it(rt: HostRuntime) {
    let mut buffer = [0u8; 4];
    let mut device = Breaks { calls: 0, good: 3 };
    assert_eq!(rt; fill(&mut device, &mut buffer), Err(ReadFault));
    assert_eq!(rt; device.calls, 4);
    let mut device = Breaks { calls: 0, good: 3 };
    assert_eq!(rt; skip(&mut device, 4), Err(ReadFault));
    assert_eq!(rt; device.calls, 4);
    let mut device = Breaks { calls: 0, good: 3 };
    assert_eq!(rt;
        read_at_most(rt.alloc(), &mut device, 4).err(),
        Some(InputFault::Read)
    );
    let mut device = Breaks { calls: 0, good: 3 };
    assert_eq!(rt; put_all(&mut device, b"abcd"), Err(WriteFault));
    assert_eq!(rt; device.calls, 4);
    let mut device = Breaks { calls: 0, good: 4 };
    assert_eq!(rt; put_all(&mut device, b"abcd"), Ok(()));
}

#[test]
fn a_writer_that_takes_nothing_fails(rt: HostRuntime) {
    let mut room = [0u8; 3];
    let mut writer = room.as_mut_slice();
    assert_eq!(rt; put_all(&mut writer, b"abcd"), Err(WriteFault));
    assert_eq!(rt; room, *b"abc");
}

#[test]
fn a_line_has_what_was_put(rt: HostRuntime) {
    let mut line: Line<32> = Line::new();
    line.put(b"slot ");
    line.put_decimal(7usize);
    line.end();
    assert_eq!(rt; line.as_slice(), b"slot 7\n".as_slice());
    line.clear();
    line.push(b'+');
    line.put_decimal(i32::MIN);
    assert_eq!(rt; line.as_slice(), b"+-2147483648".as_slice());
}
