//! `run --budget N`.

use crate::outcome::leaves;

/// Runs these commands with this budget, if one is given.
const CASES: &[(&[&str], &str, &str)] = &[
    (&["run", "--budget", "0"], "make 1\n", "noroom\n"),
    (
        &["run", "--budget", "8"],
        "make 8\nmake 1\nleave 1\nleft 1\nmake 1\nreturn 1\n",
        "made 1\nnoroom\nleaving 1\nleft 1\nmade 2\nnoroom\n",
    ),
    // an object that leaves or returns takes its room
    (
        &["run", "--budget=8"],
        "make 8\nleave 1\nmake 1\nleft 1\nreturn 1\nmake 1\nreturned 1\nfree 1\nmake 8\n",
        "made 1\nleaving 1\nnoroom\nleft 1\nreturning 1\nnoroom\nhome 1\nfreed 1\nmade 2\n",
    ),
    (
        &["run", "--budget", "+9"],
        "make 9\nmake 1\n",
        "made 1\nnoroom\n",
    ),
    (
        &["run", "--budget", "0010"],
        "make 10\nmake 1\n",
        "made 1\nnoroom\n",
    ),
    (
        &["run", "--budget", "65535"],
        "make 65536\nmake 65535\n",
        "noroom\nmade 1\n",
    ),
    (&["run", "--budget", "67108864"], "make 65536\n", "made 1\n"),
    (&["run"], "make 65536\n", "made 1\n"),
];

#[test]
fn objects_that_are_not_far_fill_the_budget(rt: HostRuntime) {
    for &(arguments, input, output) in CASES {
        let wanted: (u8, &[u8], &[u8]) = (0, output.as_bytes(), b"");
        leaves(&rt, rt.alloc(), arguments, input.as_bytes(), wanted);
    }
}
