// Days and times.
ghost use Rattle.std.specs.Prelude.{◌≡◌, true, false, MatchOption};
ghost use Rattle.rules.specs.Kept.{resolved, kept as kept_form};
ghost use Rattle.rules.specs.Kinds.{days_in as days_in_of, day_ok, time_ok, date_time_ok};

use crate::classes::numeral_in;
use crate::pieces::piece;

// How many days a month has.
fn days_in(year: u64, month: u64) -> u64
    ensures { result ≡ days_in_of year month }
{
    match month {
        2 if year % 4 == 0 && (year % 100 != 0 || year % 400 == 0) => 29,
        2 => 28,
        4 | 6 | 9 | 11 => 30,
        _ => 31,
    }
}

// AAAA-MM-DD, a real day of 2010 to 2099.
fn is_day(text: &[u8]) -> bool
    ensures { result ≡ day_ok text.now }
{
    if text.len() != 10 {
        return false;
    }
    let Some(year) = numeral_in(&text[..4], 2010, 2099) else {
        return false;
    };
    let Some(month) = numeral_in(&text[5..7], 1, 12) else {
        return false;
    };
    text[4] == b'-' && text[7] == b'-' && numeral_in(&text[8..], 1, days_in(year, month)).is_some()
}

// hh:mm:ss, to 23:59:59.
fn is_time(text: &[u8]) -> bool
    ensures { result ≡ time_ok text.now }
{
    text.len() == 8
        && text[2] == b':'
        && text[5] == b':'
        && numeral_in(&text[..2], 0, 23).is_some()
        && numeral_in(&text[3..5], 0, 59).is_some()
        && numeral_in(&text[6..], 0, 59).is_some()
}

// A day, 'T' and a time.
pub(crate) fn is_date_time(text: &[u8]) -> bool
    ensures { result ≡ date_time_ok text.now }
{
    text.len() == 19 && is_day(&text[..10]) && text[10] == b'T' && is_time(&text[11..])
}

/// The day and time that a value is, as it stands in the value.
pub fn date_time(raw: &[u8]) -> Option<&[u8]>
    ensures { MatchOption result (date_time_ok (kept_form (resolved raw.now)) ≡ false) (λ s. (date_time_ok (kept_form (resolved raw.now)) ≡ true) × (s.now ≡ kept_form (resolved raw.now))) }
{
    let text = piece(raw);
    is_date_time(text).then_some(text)
}
