//! Comparisons of what is found with what is wanted.

use std::fmt::Debug;
use std::process::Abort;

/// `assert_eq!` as a call, since a test that calls is proved in a fifth of the time. A failure tells what was compared, in
/// which row of a table, and both values.
macro_rules! same {
    ($rt:expr; $left:expr, $right:expr) => {
        $crate::compared::compare(
            &$rt,
            concat!(stringify!($left), " == ", stringify!($right)),
            &$left,
            &$right,
        )
    };
    ($rt:expr; $left:expr, $right:expr, $row:expr) => {
        $crate::compared::compare_row(&$rt, stringify!($left), &$row, &$left, &$right)
    };
}

pub(crate) use same;

/// Both are the same.
pub fn compare<T: PartialEq + Debug>(rt: &impl Abort, what: &str, left: &T, right: &T) {
    assert_eq!(rt; left, right, "{what}");
}

/// Both are the same in this row.
pub fn compare_row<T: PartialEq + Debug, R: Debug>(
    rt: &impl Abort,
    what: &str,
    row: &R,
    left: &T,
    right: &T,
) {
    assert_eq!(rt; left, right, "{what} at {row:?}");
}
