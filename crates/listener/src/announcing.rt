//! Saying where is listened: at which port, or at which file.
ghost use Rattle.std.specs.Prelude.{◌≡◌, decimal, IfOk, OnErr, OnOk};
ghost use Rattle.std.specs.Io.KnownBytes.{Appends};
ghost use Rattle.streams.specs.Streams.{AppendsPart};
ghost use Rattle.listener.specs.Announcing.{listening_at, listening_line};

use std::io::{self, Error, ErrorKind, Write};
use streams::{Line, WriteFault, put_all};

/// The line that says which port is listened on.
fn listening_line(port: u16) -> Line<32>
    ensures { result.items ≡ listening_line port }
{
    let mut line = Line::new();
    line.put(b"listening ");
    line.put_decimal(port);
    line.end();
    line
}

/// Says which port is listened on.
pub fn announce<W: Write>(port: u16, writer: &mut W) -> Result<(), WriteFault>
    ensures ok { OnOk result (Appends (W.contents writer.old) (W.contents writer.new) (listening_line port)) }
    ensures err { OnErr result (AppendsPart (W.contents writer.old) (W.contents writer.new) (listening_line port)) }
{
    put_all(writer, &listening_line(port))
}

/// The longest path of a socket file. The system takes 107 bytes, and the file is made in a folder whose name is longer by some.
const PATH_LIMIT: usize = 103;

/// What a door is called: its port in decimal, or the path of its socket file.
pub type Name = Line<PATH_LIMIT>;

/// The name of a port.
pub fn port_name(port: u16) -> Name
    ensures { result.items ≡ decimal port }
{
    let mut name = Name::new();
    name.put_decimal(port);
    name
}

/// The name of a socket file. A path that is empty, too long or more than a line is an error.
pub fn file_name(path: &str) -> io::Result<Name>
    ensures { IfOk result (λ name. name.items ≡ path.now) }
{
    let bytes = path.as_bytes();
    if bytes.is_empty() || bytes.len() > PATH_LIMIT || bytes.contains(&b'\n') {
        return Err(Error::from(ErrorKind::InvalidInput));
    }
    let mut name = Name::new();
    name.put(bytes);
    Ok(name)
}

/// The line that says where is listened.
fn listening_at(name: &Name) -> Line<128>
    ensures { result.items ≡ listening_at name.now.items }
{
    let mut line = Line::new();
    line.put(b"listening ");
    line.put(name.as_slice());
    line.end();
    line
}

/// Says where is listened.
pub fn announce_at<W: Write>(name: &Name, writer: &mut W) -> Result<(), WriteFault>
    ensures ok { OnOk result (Appends (W.contents writer.old) (W.contents writer.new) (listening_at name.now.items)) }
    ensures err { OnErr result (AppendsPart (W.contents writer.old) (W.contents writer.new) (listening_at name.now.items)) }
{
    put_all(writer, &listening_at(name))
}
