//! Scripts: commands, a line each, and their replies after `> `. A line that begins with `---`
//! begins with a fresh agent, and what follows on it are arguments of `run`, as in
//! `--- --budget 8`. A line that begins with `#` is a comment, and an empty one says nothing.

use std::alloc::{AllocError, Global};

/// What is said to one agent, and what it is to reply.
#[derive(Drop)]
pub struct Conversation {
    pub arguments: String,
    pub commands: String,
    pub replies: String,
}

impl Conversation {
    fn new(alloc: Global, arguments: &str) -> Result<Self, AllocError> {
        let mut kept = String::new(alloc);
        kept.push_str(arguments)?;
        Ok(Conversation {
            arguments: kept,
            commands: String::new(alloc),
            replies: String::new(alloc),
        })
    }
}

/// The conversations of a script, in order.
pub fn conversations(alloc: Global, text: &str) -> Result<Vec<Conversation>, AllocError> {
    let mut done = Vec::new(alloc);
    let mut open = Conversation::new(alloc, "")?;
    for line in text.lines() {
        if let Some(arguments) = line.strip_prefix("---") {
            let next = Conversation::new(alloc, arguments)?;
            done.push(std::mem::replace(&mut open, next))?;
        } else if let Some(reply) = line.strip_prefix("> ") {
            open.replies.push_str(reply)?;
            open.replies.push('\n')?;
        } else if !line.is_empty() && !line.starts_with('#') {
            open.commands.push_str(line)?;
            open.commands.push('\n')?;
        }
    }
    done.push(open)?;
    Ok(done)
}
