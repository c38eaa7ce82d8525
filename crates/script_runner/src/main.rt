//! Runs written conversations, and compares what the agent replies with what they say.
#![tactic(auto)]

mod script;

use anyhow::Result;
use script::{Conversation, conversations};
use std::alloc::Global;
use std::process::ExitCode;
use std::{env, fs};
use test_devices::Pieces;

/// The first line of the output that isn't as wanted, in words.
fn line_that_differs(alloc: Global, output: &str, wanted: &str) -> Result<Option<String>> {
    let mut wanted = wanted.lines();
    for (at, reply) in output.lines().enumerate() {
        let want = wanted.next().unwrap_or("nothing");
        if reply != want {
            return Ok(Some(format!(in alloc; "reply {at} is {reply}, and {want} was wanted")?));
        }
    }
    match wanted.next() {
        Some(want) => Ok(Some(format!(in alloc; "there is no reply where {want} was wanted")?)),
        None => Ok(None),
    }
}

/// `run`, and the arguments that a conversation gives it.
fn words(alloc: Global, conversation: &Conversation) -> Result<Vec<&str>> {
    let mut words = Vec::new(alloc);
    words.push("run")?;
    for word in conversation.arguments.as_str().split_whitespace() {
        words.push(word)?;
    }
    Ok(words)
}

/// What the agent answered in place of the wanted replies, if it did, where it reads so many bytes
/// at a time.
fn difference(alloc: Global, conversation: &Conversation, size: usize) -> Result<Option<String>> {
    let words = words(alloc, conversation)?;
    let mut reader = Pieces::new(conversation.commands.as_str().as_bytes(), size);
    let mut output = Vec::new(alloc);
    let mut errors = Vec::new(alloc);
    let status = agent::tool(alloc, &words, &mut reader, &mut output, &mut errors);
    if status != 0 || !errors.is_empty() {
        return Ok(Some(format!(in alloc; "status {status}")?));
    }
    let output = std::str::from_utf8(&output)?;
    line_that_differs(alloc, output, conversation.replies.as_str())
}

/// Says of a script how many of its replies came, or which one did not. Each conversation is run
/// twice: its commands come in one piece, and byte by byte.
fn report(alloc: Global, text: &str) -> Result<String> {
    let mut count = 0usize;
    for conversation in conversations(alloc, text)? {
        for size in [usize::MAX, 1] {
            if let Some(text) = difference(alloc, &conversation, size)? {
                return Ok(text);
            }
        }
        count = count.saturating_add(conversation.replies.as_str().lines().count());
    }
    Ok(format!(in alloc; "{count} replies as written")?)
}

fn main(rt: HostRuntime) -> Result<ExitCode> {
    let alloc = rt.alloc();
    for name in env::args(&rt)?.skip(1) {
        let bytes = fs::read(&rt, name.as_str())?;
        let said = report(alloc, std::str::from_utf8(&bytes)?)?;
        println!(rt; "{name}: {said}")?;
    }
    Ok(ExitCode::SUCCESS)
}
