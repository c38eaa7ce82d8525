//! Points in time, as they are written.

use std::fmt::{self, Display, Formatter};
use std::time::{Clock, SystemTime, UNIX_EPOCH};

/// How many seconds a day has.
const DAY: u64 = 86_400;

/// How many days the calendar's cycle of 400 years has.
const CYCLE: u64 = 146_097;

/// How many days before 1970-01-01 a cycle began, on 1 March of year 0.
const BEFORE_1970: u64 = 719_468;

/// A point in time, in UTC, shown as `2026-11-25T23:09:04.123Z`.
#[derive(Clone, Copy, Drop, Debug, PartialEq, Eq)]
pub(crate) struct Moment {
    /// Since 1970-01-01T00:00:00Z.
    seconds: u64,
    millis: u32,
}

/// A day of the Gregorian calendar.
#[derive(Clone, Copy, Drop, Debug, PartialEq, Eq)]
struct Day {
    year: u64,
    month: u64,
    day: u64,
}

impl Day {
    /// The day so many days after 1970-01-01. Years are counted from 1 March, so that a leap day comes last.
    fn after_1970(days: u64) -> Day {
        let shifted = days.saturating_add(BEFORE_1970);
        let in_cycle = shifted % CYCLE;
        let without_leaps = in_cycle - in_cycle / 1_460 + in_cycle / 36_524;
        let year = without_leaps.saturating_sub(in_cycle / 146_096) / 365;
        let in_year = in_cycle.saturating_sub(365 * year + year / 4 - year / 100);
        let month = (5 * in_year + 2) / 153;
        Day {
            year: shifted / CYCLE * 400 + year + u64::from(month >= 10),
            month: if month < 10 { month + 3 } else { month - 9 },
            day: in_year - (153 * month + 2) / 5 + 1,
        }
    }
}

impl Moment {
    /// The time by this clock; 1970 where it can't be read.
    pub fn now<R: Clock>(clock: &R) -> Moment {
        let elapsed = match SystemTime::now(clock) {
            Ok(now) => now.duration_since(UNIX_EPOCH).unwrap_or_default(),
            Err(_) => Default::default(),
        };
        Moment {
            seconds: elapsed.as_secs(),
            millis: elapsed.subsec_millis(),
        }
    }
}

impl Display for Moment {
    fn fmt<W: fmt::Write>(&self, f: &mut Formatter<W>) -> fmt::Result {
        let Day { year, month, day } = Day::after_1970(self.seconds / DAY);
        let second = self.seconds % DAY;
        let (hour, minute, second) = (second / 3_600, second / 60 % 60, second % 60);
        write!(
            f,
            "{year:04}-{month:02}-{day:02}T{hour:02}:{minute:02}:{second:02}.{:03}Z",
            self.millis
        )
    }
}
