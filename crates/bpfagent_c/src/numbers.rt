//! The numbers that C sees, by the names of `include/bpfagent.h` without `BPFAGENT_`. The header says what each means.
//! `tests/product/header.py` compares both, and reads from the headings which enum a number is of.

// ---- enum bpfagent_reply

pub const OK: u32 = 0;

pub const RAN: u32 = 1;

pub const HIT: u32 = 2;

pub const WAITING: u32 = 3;

pub const PAUSED: u32 = 4;

pub const STOPPED: u32 = 5;

pub const NOMEM: u32 = 10;

pub const FULL: u32 = 11;

pub const NOROOM: u32 = 12;

pub const OUTSIDE: u32 = 13;

pub const AWAY: u32 = 14;

pub const IS_HERE: u32 = 15;

pub const IS_LEAVING: u32 = 16;

pub const IS_FAR: u32 = 17;

pub const IS_RETURNING: u32 = 18;

pub const SCOPED: u32 = 19;

pub const FAULT_HERE: u32 = 20;

pub const FAULT_FAR: u32 = 21;

pub const NOSLOT: u32 = 22;

pub const NOWATCH: u32 = 23;

pub const NOTPAUSED: u32 = 24;

pub const REFUSED: u32 = 25;

pub const NONE: u32 = 26;

pub const DAMAGED: u32 = 27;

pub const SHORT: u32 = 28;

pub const NOAGENT: u32 = 30;

pub const BAD: u32 = 31;

// ---- enum bpfagent_stop

pub const GOES_ON: u32 = 0;

// ---- enum bpfagent_state

pub const RUNNING: u32 = 0;

pub const IS_PAUSED: u32 = 1;

pub const IS_STOPPED: u32 = 2;

// ---- enum bpfagent_place

pub const HERE: u32 = 0;

pub const LEAVING: u32 = 1;

pub const FAR: u32 = 2;

pub const RETURNING: u32 = 3;

// ---- enum bpfagent_wrong

pub const WRONG_WORD: u32 = 1;

pub const WRONG_OPERAND: u32 = 2;

pub const WRONG_RANGE: u32 = 3;

pub const WRONG_LABEL: u32 = 4;

pub const WRONG_TWICE_LABEL: u32 = 5;

pub const WRONG_TOO_LONG: u32 = 6;
