//! The time of day.

use jiff_core::civil::DateTime;
use std::alloc::Global;
use std::time::{Clock, SystemTime, UNIX_EPOCH};

const NANOS: i128 = 1_000_000_000;

fn now<R: Clock>(rt: &R) -> Option<DateTime> {
    let since = SystemTime::now(rt).ok()?.duration_since(UNIX_EPOCH).ok()?;
    DateTime::from_nanosecond(since.as_secs() as i128 * NANOS).ok()
}

/// The time of day in UTC, as in `2026-11-27T20:15:00Z`. None, where the clock does not say it or there
/// is no memory for it.
pub(crate) fn time_text<R: Clock>(rt: &R, alloc: Global) -> Option<String> {
    let DateTime { date, time } = now(rt)?;
    let (year, month, day) = (date.year, date.month, date.day);
    let (hour, minute, second) = (time.hour, time.minute, time.second);
    let made = format!(in alloc;
        "{year:04}-{month:02}-{day:02}T{hour:02}:{minute:02}:{second:02}Z"
    );
    made.ok()
}
