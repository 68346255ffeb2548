//! Times of allowed signers.

ghost use Rattle.std.specs.Prelude.{◌≡◌, ◌+◌, ◌-◌, ◌*◌, ◌^◌, ◌<◌, ◌≤◌, ◌↔◌, IsTrue, slice_index};
ghost use Rattle.std.specs.Char.{is_ascii_digit};
ghost use Rattle.std.specs.List.{prefix_len};
ghost use Rattle.sshkey_matching.specs.Times.{HasTimeForm, IsMoment, IsZone, ReadsTime, ahead, after, days_of_months, days_of_years, digits, is_leap, moment, month_days, seconds_before, two_digits, zone};

const SECONDS_A_DAY: u64 = 86_400;

const SECONDS_AN_HOUR: u64 = 3_600;

/// A date and a time of day, as a text has them.
#[derive(Drop)]
struct Moment {
    year: u64,
    month: u64,
    day: u64,
    hour: u64,
    minute: u64,
    second: u64,
}

/// The first and the last second that a time may mean, from the start of 1970: the same one if it
/// names its zone.
#[derive(Clone, Copy)]
pub struct Span {
    /// The first second; at least 1.
    pub first: u64,
    /// The last second.
    pub last: u64,
}

/// The seconds from the start of 1970 that a time may mean, written `YYYYMMDD`, `YYYYMMDDHHMM` or
/// `YYYYMMDDHHMMSS`, alone or before `Z` or `UTC` in small or large letters (ssh-keygen(1),
/// "ALLOWED SIGNERS"; sshd(8), "expiry-time"). `None` for any other text, and for a time that may
/// be no later than the start of 1970. Does not allocate.
///
/// OpenSSH takes a time without a zone for one of the zone that the machine is set to: in standard
/// time before 10.6, and by the clock on the wall since then. So it may mean any second from 14
/// hours before the same time of UTC, in the easternmost zone, to 13 hours after it, in the
/// westernmost with an hour of summer. As strptime(3) does, it takes each month for one of 31 days
/// and each minute for one of 62 seconds: 20230230 is 2 March 2023. It takes no space for a leading
/// 0, as strptime(3) does.
pub fn read_time(text: &str) -> Option<Span>
    ensures { ReadsTime text.now result }
{
    if !has_time_form(text) {
        return None;
    }
    let (digits, zone) = split_digits(text.as_bytes());
    let seconds = seconds_before(&read_moment(digits));
    let epoch = days_of_years(1970) * SECONDS_A_DAY;
    let start = epoch + ahead(zone);
    if seconds <= start {
        return None;
    }
    Some(Span {
        first: seconds - start,
        last: seconds - epoch + after(zone),
    })
}

/// Whether a text has the form of a time that `read_time` takes, of whatever year. Does not
/// allocate.
pub fn has_time_form(text: &str) -> bool
    ensures { IsTrue result ↔ HasTimeForm text.now }
{
    let (digits, zone) = split_digits(text.as_bytes());
    matches!(digits.len(), 8 | 12 | 14) && is_zone(zone) && is_moment(&read_moment(digits))
}

/// How many seconds a zone is ahead of UTC at most, where none is named.
fn ahead(zone: &[u8]) -> u64
    ensures value { result ≡ ahead zone.now }
    ensures short { result ≤ 50400 }
{
    if zone.is_empty() {
        14 * SECONDS_AN_HOUR
    } else {
        0
    }
}

/// How many seconds one is after it at most.
fn after(zone: &[u8]) -> u64
    ensures value { result ≡ after zone.now }
    ensures short { result ≤ 46800 }
{
    if zone.is_empty() {
        13 * SECONDS_AN_HOUR
    } else {
        0
    }
}

/// The digits in front of a text, and what stands after them.
fn split_digits(text: &[u8]) -> (&[u8], &[u8])
    // the digits
    ensures front { result.0.now ≡ digits text.now }
    // what stands after them
    ensures rest { result.1.now ≡ zone text.now }
{
    text.split_at(count_digits(text))
}

/// The number of digits in front of a text.
fn count_digits(text: &[u8]) -> usize
    ensures { result ≡ prefix_len is_ascii_digit text.now }
{
    text.iter().take_while(|c| c.is_ascii_digit()).count()
}

/// Whether what stands after the digits is nothing, or UTC.
fn is_zone(zone: &[u8]) -> bool
    ensures { IsTrue result ↔ IsZone zone.now }
{
    zone.is_empty() || zone.eq_ignore_ascii_case(b"z") || zone.eq_ignore_ascii_case(b"utc")
}

/// The number of two digits from a place on, 0 where there are none.
fn two_digits(text: &[u8], place: usize) -> u64
    requires { place < 2 ^ 16 }
    ensures value { result ≡ two_digits text.now place }
    ensures short { result < 2 ^ 12 }
{
    10 * digit(text, place) + digit(text, place + 1)
}

/// The digit at a place, 0 where there is none.
fn digit(text: &[u8], place: usize) -> u64
    ensures value { result ≡ slice_index text.now place - 0x30 }
    ensures short { result < 2 ^ 8 }
{
    match text.get(place) {
        Some(c) => u64::from(c.saturating_sub(b'0')),
        None => 0,
    }
}

/// The moment that the digits spell.
fn read_moment(digits: &[u8]) -> Moment
    ensures value { result ≡ moment digits.now }
    ensures short { result.year < 2 ^ 20 }
{
    Moment {
        year: 100 * two_digits(digits, 0) + two_digits(digits, 2),
        month: two_digits(digits, 4),
        day: two_digits(digits, 6),
        hour: two_digits(digits, 8),
        minute: two_digits(digits, 10),
        second: two_digits(digits, 12),
    }
}

/// Whether it is one that strptime(3) reads.
fn is_moment(moment: &Moment) -> bool
    ensures { IsTrue result ↔ IsMoment moment.now }
{
    (1..=12).contains(&moment.month)
        && (1..=31).contains(&moment.day)
        && moment.hour < 24
        && moment.minute < 60
        && moment.second < 62
}

/// The seconds from the start of the year 0 to the moment.
fn seconds_before(moment: &Moment) -> u64
    requires year { moment.now.year < 2 ^ 20 }
    requires form { IsMoment moment.now }
    ensures value { result ≡ seconds_before moment.now }
    ensures short { result < 2 ^ 60 }
{
    let days = days_of_years(moment.year)
        + days_of_months(moment.year, moment.month - 1)
        + (moment.day - 1);
    ((days * 24 + moment.hour) * 60 + moment.minute) * 60 + moment.second
}

/// The days of the first `count` years, from the year 0 on: each fourth has one more, but of the
/// centuries only each fourth.
fn days_of_years(count: u64) -> u64
    requires { count < 2 ^ 20 }
    ensures value { result ≡ days_of_years count }
    ensures short { result ≤ 366 * count }
{
    if count == 0 {
        return 0;
    }
    let last = count - 1;
    365 * count + 1 + last / 4 - last / 100 + last / 400
}

/// The days of the first `count` months of a year.
fn days_of_months(year: u64, count: u64) -> u64
    requires { count < 12 }
    ensures value { result ≡ days_of_months year count }
    ensures short { result ≤ 31 * count }
{
    let mut days = 0;
    for month in 0..count {
        days += month_days(year, month + 1);
    }
    days
}

fn month_days(year: u64, month: u64) -> u64
    ensures value { result ≡ month_days year month }
    ensures short { result ≤ 31 }
{
    match month {
        2 => { if is_leap(year) { 29 } else { 28 } }
        4 | 6 | 9 | 11 => 30,
        _ => 31,
    }
}

fn is_leap(year: u64) -> bool
    ensures { result ≡ is_leap year }
{
    year % 4 == 0 && (year % 100 != 0 || year % 400 == 0)
}
