//! A stream that is read through a buffer.
ghost use Rattle.std.specs.Prelude.{◌≡◌, [], IfOk};
ghost use Rattle.std.specs.Io.Buffered.{reader_buffer, reader_inner, reader_remaining};

use std::alloc::{AllocError, Global};
use std::io::{self, BufReader, Read, Write};

/// A stream of which a read takes whatever is there, up to 8 KiB, so that the bytes after a head come with the head, and the
/// answers to several requests at once. Longer reads, and writes, go through.
#[derive(Drop)]
pub struct Buffered<S: Read + Drop> {
    reader: BufReader<S>,
}

impl<S: Read + Drop> Buffered<S> {
    /// This stream, of which nothing was read. If memory runs out it is dropped.
    pub fn new(alloc: Global, stream: S) -> Result<Self, AllocError>
        ensures stream { IfOk result (λ b. reader_inner b.reader ≡ stream) }
        ensures empty { IfOk result (λ b. reader_buffer b.reader ≡ []) }
    {
        match BufReader::new(alloc, stream) {
            Ok(reader) => Ok(Buffered { reader }),
            Err(_) => Err(AllocError),
        }
    }
}

impl<S: Read + Drop> Read for Buffered<S> {
    ghost remaining = { λ b. reader_remaining S.remaining b.reader };

    fn read(&mut self, buf: &mut [u8]) -> io::Result<usize> {
        self.reader.read(buf)
    }
}

impl<S: Read + Write + Drop> Write for Buffered<S> {
    ghost contents = { λ b. S.contents (reader_inner b.reader) };

    fn write(&mut self, buf: &[u8]) -> io::Result<usize> {
        self.reader.get_mut().write(buf)
    }

    // nothing is kept back
    fn flush(&mut self) -> io::Result<()> {
        Ok(())
    }
}
