//! Replies of the service, and their lines.
ghost use Rattle.std.specs.Prelude.{◌≡◌, ◌<◌, ◌≤◌, ◌+◌, ◌++◌, length};
ghost use Rattle.console.specs.Lines.{ended};
ghost use Rattle.console.specs.Replies.{number_text};
ghost use Rattle.ship_service.specs.Replies.{service_text, IsShortReply, is_busy};

use console::{REPLY_LIMIT, ReplyLine, print_reply, put_named};
use world::Reply;

/// What a command was answered.
#[derive(Drop, Debug, PartialEq, Eq)]
pub enum ServiceReply {
    /// What an agent with one conversation may answer too.
    Plain(Reply),
    /// Another has its turn on the object.
    Busy { object: u32 },
    /// The stamps of the object, or those of the connection, have run out.
    Worn,
    /// The mover was asked to move the object.
    Asked { object: u32 },
    /// The service doesn't do that.
    Unserved,
}

impl ServiceReply {
    /// Whether another had its turn on the object.
    pub(crate) fn is_busy(&self) -> bool
        ensures { result ≡ is_busy self.now }
    {
        matches!(self, ServiceReply::Busy { .. })
    }
}

fn print_text(text: &[u8], line: &mut ReplyLine)
    requires { length text.now < REPLY_LIMIT }
    ensures { line.new.items ≡ ended text.now }
{
    line.clear();
    line.put(text);
    line.end();
}

/// Makes this the line of a name and the number of an object.
fn print_named(name: &[u8], object: u32, line: &mut ReplyLine)
    requires { length name.now + 22 ≤ REPLY_LIMIT }
    ensures { line.new.items ≡ ended (name.now ++ number_text object) }
{
    line.clear();
    put_named(line, name, object as u64);
    line.end();
}

pub(crate) fn print_service_reply(reply: &ServiceReply, line: &mut ReplyLine)
    requires { IsShortReply reply.now }
    ensures { line.new.items ≡ ended (service_text reply.now) }
{
    match reply {
        ServiceReply::Plain(reply) => print_reply(reply, line),
        ServiceReply::Busy { object } => print_named(b"busy", *object, line),
        ServiceReply::Worn => print_text(b"worn", line),
        ServiceReply::Asked { object } => print_named(b"asked", *object, line),
        ServiceReply::Unserved => print_text(b"unserved", line),
    }
}
