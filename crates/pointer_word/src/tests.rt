//! Words by their numbers, computed by hand from the layout.

use crate::word::Word;

/// The numbers of a word through a scope, a turn, cooling, a move to the far store and back.
fn travelled() -> Option<[u64; 9]> {
    let opened = Word::of(0)?.opened()?;
    let taken = opened.taken()?;
    let given = taken.given(5)?;
    let closed = given.closed()?;
    let cooled = closed.cooled();
    let leaving = cooled.leaving()?;
    let left = leaving.left()?;
    let returning = left.returning()?;
    let home = returning.home()?;
    Some([
        opened.number(),
        taken.number(),
        given.number(),
        closed.number(),
        cooled.number(),
        leaving.number(),
        left.number(),
        returning.number(),
        home.number(),
    ])
}

#[test]
fn a_word_travels(rt: HostRuntime) {
    assert_eq!(rt;
        travelled(),
        Some([
            0x100, 0x10c, 0x5_0108, 0x5_0008, 0x5_0000, 0x5_0001, 0x5_0002, 0x5_0001, 0x5_0000
        ])
    );
}

/// Whether an object with an open scope, or whose turn is taken, leaves.
fn leaves_while_held() -> Option<bool> {
    let scoped = Word::of(0x5_0100)?.leaving().is_some();
    let taken = Word::of(0x5_0004)?.leaving().is_some();
    Some(scoped || taken)
}

#[test]
fn a_held_object_stays(rt: HostRuntime) {
    assert_eq!(rt; leaves_while_held(), Some(false));
}

#[test]
fn numbers_that_are_no_words(rt: HostRuntime) {
    assert!(rt; Word::of(3).is_none());
    assert!(rt; Word::of(0x10).is_none());
    assert!(rt; Word::of(0x80).is_none());
}

#[test]
fn scopes_are_counted(rt: HostRuntime) {
    let mut word = Word::new();
    word.open_scope();
    word.open_scope();
    assert_eq!(rt; word.number(), 0x200);
    word.close_scope();
    assert_eq!(rt; word.number(), 0x100);
}

/// Whether an object is here before it leaves, on its way, far, and on its way back.
fn places() -> Option<[bool; 4]> {
    let word = Word::new();
    let leaving = word.leaving()?;
    let far = leaving.left()?;
    let returning = far.returning()?;
    Some([
        word.is_local(),
        leaving.is_local(),
        far.is_local(),
        returning.is_local(),
    ])
}

#[test]
fn an_object_is_here_until_it_leaves(rt: HostRuntime) {
    assert_eq!(rt; places(), Some([true, false, false, false]));
}

/// Whether a stamp above the greatest, or below the old one, is taken.
fn wrong_stamps() -> Option<bool> {
    let word = Word::of(0x5_0004)?;
    Some(word.given(0x1_0000_0000_0000).is_some() || word.given(4).is_some())
}

#[test]
fn a_stamp_neither_falls_nor_wraps(rt: HostRuntime) {
    assert_eq!(rt; wrong_stamps(), Some(false));
}

/// The number of a hot object that leaves, and of one that was cooled twice.
fn cold() -> Option<[u64; 2]> {
    let hot = Word::of(0x5_0008)?;
    Some([hot.leaving()?.number(), hot.cooled().cooled().number()])
}

#[test]
fn a_hot_object_leaves_cold(rt: HostRuntime) {
    assert_eq!(rt; cold(), Some([0x5_0001, 0x5_0000]));
}
