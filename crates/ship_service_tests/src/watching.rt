//! A connection that looks at object 1 all the time, while two machines add to it and it may leave between two additions, and lets it
//! leave and return when they have ended.

use crate::tools::{LOOKS, Tools, ask, has_exit, rest};
use far_store::FarStore;
use std::sync::Wait;
use workers::TableName;

/// What the machines add up to.
const TOTAL: u64 = 20_000;

/// What `get 1 0 8` was answered.
#[derive(Clone, Copy, Drop, PartialEq, Eq)]
enum Answer {
    /// The number that the bytes are.
    Count(u64),
    Busy,
    Away,
    /// Anything else, which is wrong.
    Other,
}

/// The number that the line of eight bytes shows.
fn count_of(told: &[u8]) -> Option<u64> {
    let digits = told
        .strip_prefix(b"bytes ".as_slice())?
        .strip_suffix(b"\n".as_slice())?;
    let mut bytes = [0; 8];
    hex::decode_to_slice(digits, &mut bytes).ok()?;
    Some(u64::from_le_bytes(bytes))
}

/// What these bytes answer.
fn answer_of(told: &[u8]) -> Answer {
    if told == b"busy 1\n".as_slice() {
        return Answer::Busy;
    }
    if told == b"away 1\n".as_slice() {
        return Answer::Away;
    }
    match count_of(told) {
        Some(count) => Answer::Count(count),
        None => Answer::Other,
    }
}

/// Asks for the bytes of object 1.
fn look<R: Wait, F: FarStore, K: TableName>(tools: &Tools<R, F, K>) -> Answer {
    answer_of(&ask(tools, b"get 1 0 8\n"))
}

/// Asks that object 1 leaves, and says whether that was answered as it should be.
fn asks_to_leave<R: Wait, F: FarStore, K: TableName>(tools: &Tools<R, F, K>) -> bool {
    let told = ask(tools, b"leave 1\n");
    told.as_slice() == b"asked 1\n".as_slice() || told.as_slice() == b"full\n".as_slice()
}

/// Asks that object 1 leaves, and for its bytes: the greatest count so far, or none where the answer is wrong or a lesser count.
fn next_count<R: Wait, F: FarStore, K: TableName>(
    tools: &Tools<R, F, K>,
    least: u64,
) -> Option<u64> {
    if !asks_to_leave(tools) {
        return None;
    }
    match look(tools) {
        Answer::Count(count) => {
            if count < least {
                return None;
            }
            Some(count)
        }
        Answer::Other => None,
        _ => Some(least),
    }
}

/// Whether both machines have stopped by `exit`.
fn have_ended<R: Wait, F: FarStore, K: TableName>(tools: &Tools<R, F, K>) -> bool {
    has_exit(&ask(tools, b"regs 1\n")) && has_exit(&ask(tools, b"regs 2\n"))
}

/// Looks until both machines have ended, and says whether they have, without a wrong answer before.
fn looks_until_the_end<R: Wait, F: FarStore, K: TableName>(tools: &Tools<R, F, K>) -> bool {
    let mut least = 0;
    for _ in 0..LOOKS {
        let Some(count) = next_count(tools, least) else {
            return false;
        };
        least = count;
        if have_ended(tools) {
            return true;
        }
        rest();
    }
    false
}

/// Whether this may be answered when the machines have ended.
fn is_right(now: Answer) -> bool {
    now == Answer::Busy || now == Answer::Away || now == Answer::Count(TOTAL)
}

/// Asks that object 1 leaves until it is away, and says whether it was, without a wrong answer before.
fn goes<R: Wait, F: FarStore, K: TableName>(tools: &Tools<R, F, K>) -> bool {
    for _ in 0..LOOKS {
        if !asks_to_leave(tools) {
            return false;
        }
        let now = look(tools);
        if now == Answer::Away || !is_right(now) {
            return now == Answer::Away;
        }
        rest();
    }
    false
}

/// Asks for the bytes of object 1 until they are here, and says whether they are right, without a wrong answer before.
fn comes<R: Wait, F: FarStore, K: TableName>(tools: &Tools<R, F, K>) -> bool {
    for _ in 0..LOOKS {
        let now = look(tools);
        if now == Answer::Count(TOTAL) || !is_right(now) {
            return now == Answer::Count(TOTAL);
        }
        rest();
    }
    false
}

/// Lets object 1 go and come four times, and says whether it did. Each time its bytes are those of another parcel.
fn goes_and_comes<R: Wait, F: FarStore, K: TableName>(tools: &Tools<R, F, K>) -> bool {
    for _ in 0..4 {
        if !goes(tools) || !comes(tools) {
            return false;
        }
    }
    true
}

/// Looks at object 1 until both machines have ended, and then lets it go and come: whether all was answered as it should be, by
/// `busy 1`, `away 1` and counts that never fall, of which the last are the total.
pub fn watches<R: Wait, F: FarStore, K: TableName>(tools: &Tools<R, F, K>) -> bool {
    looks_until_the_end(tools) && goes_and_comes(tools)
}
