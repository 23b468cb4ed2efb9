//! Times as people read them.
use std::fmt;

/// Seconds since the beginning of 1970, in universal time. Years before 1 and after 9999 are printed as seconds.
#[derive(Clone, Copy)]
pub(crate) struct Moment(pub i64);

/// Seconds east of universal time.
#[derive(Clone, Copy)]
pub(crate) struct Offset(pub i32);

/// A day of the Gregorian calendar.
#[derive(Drop)]
struct Day {
    year: u64,
    month: u64,
    day: u64,
}

/// The first second of year 1, and the first one after year 9999.
const FIRST: i64 = -62_135_596_800;

const END: i64 = 253_402_300_800;

/// Days from the beginning of March of year 0 to the beginning of 1970.
const DAYS_TO_1970: i64 = 719_468;

/// The day that so many days come before, since the beginning of March of year 0. Years here begin with March, so that
/// a leap day is the last of its year.
fn day_of(days: u64) -> Day {
    let era = days / 146_097;
    let of_era = days % 146_097;
    let leaps = (of_era / 1_460)
        .wrapping_sub(of_era / 36_524)
        .wrapping_add(of_era / 146_096);
    let year = of_era.wrapping_sub(leaps) / 365;
    let before = (year * 365).wrapping_add(year / 4).wrapping_sub(year / 100);
    let of_year = of_era.wrapping_sub(before) % 366;
    let month = (5 * of_year + 2) / 153;
    let day = of_year.wrapping_sub((153 * month + 2) / 5).wrapping_add(1);
    let is_next = month >= 10;
    Day {
        year: era * 400 + year + u64::from(is_next),
        month: if is_next { month - 9 } else { month + 3 },
        day,
    }
}

impl fmt::Display for Moment {
    fn fmt<W: fmt::Write>(&self, f: &mut fmt::Formatter<W>) -> fmt::Result {
        let seconds = self.0;
        if seconds < FIRST || seconds >= END {
            return write!(f, "{seconds} s");
        }
        let since = (seconds + DAYS_TO_1970 * 86_400) as u64;
        let day = day_of(since / 86_400);
        let hour = since % 86_400 / 3_600;
        let minute = since % 3_600 / 60;
        let second = since % 60;
        write!(
            f,
            "{:04}-{:02}-{:02} {hour:02}:{minute:02}:{second:02}",
            day.year, day.month, day.day
        )
    }
}

impl fmt::Display for Offset {
    fn fmt<W: fmt::Write>(&self, f: &mut fmt::Formatter<W>) -> fmt::Result {
        let sign = if self.0 < 0 { '-' } else { '+' };
        let seconds = self.0.unsigned_abs();
        let hour = seconds / 3_600;
        let minute = seconds % 3_600 / 60;
        let second = seconds % 60;
        write!(f, "{sign}{hour:02}:{minute:02}:{second:02}")
    }
}
