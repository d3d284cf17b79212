//! What the clock says.

use jiff_core::civil::DateTime;
use std::alloc::{AllocError, Global};
use std::time::{Clock, Duration, SystemTime, UNIX_EPOCH};

/// A time in words, as `2026-12-01 08:00 UTC`.
fn words_of(alloc: Global, now: DateTime) -> Result<String, AllocError> {
    let DateTime { date, time } = now;
    format!(in alloc;
        "{:04}-{:02}-{:02} {:02}:{:02} UTC",
        date.year, date.month, date.day, time.hour, time.minute
    )
}

/// The time since the beginning of 1970, if the clock can be read.
fn since_1970<C: Clock>(clock: &C) -> Option<Duration> {
    let now = SystemTime::now(clock).ok()?;
    now.duration_since(UNIX_EPOCH).ok()
}

/// What the clock says, in UTC and in words. There is none where it can't be read, or stands beyond the year 9999, or out of
/// memory.
pub fn time_now<C: Clock>(clock: &C, alloc: Global) -> Option<String> {
    let nanos = i128::try_from(since_1970(clock)?.as_nanos()).ok()?;
    let now = DateTime::from_nanosecond(nanos).ok()?;
    words_of(alloc, now).ok()
}
