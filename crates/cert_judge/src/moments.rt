//! Moments in order: civil times in UTC, compared field by field from the year down
//! (RFC 5280, 4.1.2.5).

ghost use Rattle.std.specs.Prelude.{◌≡◌, ◌↔◌, IsTrue, ℕ};
ghost use Rattle.cert_model.specs.View.{time_view};
ghost use Rattle.cert_model.specs.Range.{is_at_most};
ghost use Rattle.cert_judge.specs.Moments.{within_year, IsNotAfter, IsBetween};

use jiff::civil::DateTime;

fn within_year(t: &DateTime) -> [u32; 6]
    ensures { result ≡ within_year (time_view t.now) }
{
    [
        t.month() as u32,
        t.day() as u32,
        t.hour() as u32,
        t.minute() as u32,
        t.second() as u32,
        t.subsec_nanosecond() as u32,
    ]
}

fn is_at_most(first: &[u32], second: &[u32]) -> bool
    ensures { result ≡ is_at_most first.now second.now }
{
    first.cmp(second).is_le()
}

/// Returns whether the first moment is not later than the second. Both are civil times in UTC;
/// nanoseconds count.
pub fn is_not_after(first: &DateTime, second: &DateTime) -> bool
    ensures { IsTrue result ↔ IsNotAfter (time_view first.now) (time_view second.now) }
{
    if first.year() < second.year() {
        return true;
    }
    if first.year() > second.year() {
        return false;
    }
    let first = within_year(first);
    let second = within_year(second);
    is_at_most(&first, &second)
}

/// Whether a moment is from one to another, both included.
pub(crate) fn is_between(first: &DateTime, moment: &DateTime, last: &DateTime) -> bool
    ensures { IsTrue result ↔ IsBetween (time_view first.now) (time_view moment.now) (time_view last.now) }
{
    is_not_after(first, moment) && is_not_after(moment, last)
}
