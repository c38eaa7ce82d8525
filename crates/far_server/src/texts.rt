//! What is said.
ghost use Rattle.std.specs.Prelude.{◌≡◌, ◌≤◌, length};
ghost use Rattle.streams.specs.Streams.{AppendsSome};
ghost use Rattle.far_server.specs.Texts.{client_line, fault_name};

use far_stream::StreamFault;
use std::io::Write;
use streams::{Line, put_all};

/// Why a client was given up.
fn name_of(fault: StreamFault) -> &'static [u8]
    ensures name { result.now ≡ fault_name fault }
    ensures short { length result.now ≤ 14 }
{
    match fault {
        StreamFault::Io => b"stream fault",
        StreamFault::Damaged => b"damaged bytes",
        StreamFault::Protocol => b"protocol fault",
    }
}

/// The line that says why a client was given up.
fn given_up(number: u64, fault: StreamFault) -> Line<48>
    ensures { result.items ≡ client_line number fault }
{
    let mut line = Line::new();
    line.put(b"client ");
    line.put_decimal(number);
    line.put(b": ");
    line.put(name_of(fault));
    line.end();
    line
}

/// Says why a client was given up. What the stream doesn't take of the line is lost.
pub(crate) fn tell<E: Write>(number: u64, fault: StreamFault, errors: &mut E)
    ensures { AppendsSome (E.contents errors.old) (E.contents errors.new) (client_line number fault) }
{
    let _ = put_all(errors, &given_up(number, fault));
}
