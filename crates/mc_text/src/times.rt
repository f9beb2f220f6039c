//! A time as a listing shows it, in UTC.
ghost use Rattle.std.specs.Prelude.{◌≡◌, ◌≤◌, ◌<◌, ◌*◌, ◌++◌, ◌∷◌, [], pos, ◌≤ℤ◌, string_bytes, IfOk, IfSome};
ghost use Rattle.jiff.specs.Words.{civil_nanos};
ghost use Rattle.mc_text.specs.Civil.{civil_of, IsShownTime};
ghost use Rattle.mc_text.specs.Times.{month_text, two_digits, two_places, four_digits};
ghost use Rattle.mc_text.specs.Times.{civil_text, time_text, shown_second, is_recent};

use crate::error::NoMemory;
use crate::text::Text;
use jiff::Timestamp;
use jiff::civil::DateTime;
use jiff::tz::Offset;
use std::alloc::{AllocError, Global};

/// The last second that is shown as a date, the last one of the year 2999.
const LAST_SECOND: u64 = 32_503_679_999;

/// For so many seconds, 180 days, a time is shown with its time of day.
const RECENT_SECONDS: u64 = 15_552_000;

/// A date with a time of day.
#[derive(Clone, Copy)]
struct CivilTime {
    year: u16,
    month: u8,
    day: u8,
    hour: u8,
    minute: u8,
}

/// A time, given as seconds since 1970, in twelve bytes: the day and month, and then the time of
/// day where it is of the last 180 days before `now`, or else the year. A time outside the years
/// 1970 to 2999 is twelve `?`.
pub fn time_text(alloc: Global, secs: i64, now: u64) -> Result<Text, NoMemory>
    ensures { IfOk result (λ text. text ≡ time_text secs now) }
{
    let mut line = String::new(alloc);
    let Some(second) = shown_second(secs) else {
        line.push_str("????????????")?;
        return Ok(Text(line));
    };
    push_civil(&mut line, civil_at(second), is_recent(second, now))?;
    Ok(Text(line))
}

/// The second, where it is shown as a date.
fn shown_second(secs: i64) -> Option<u64>
    ensures value { result ≡ shown_second secs }
    ensures bound { IfSome result (λ n. n ≤ LAST_SECOND) }
{
    if secs < 0 || secs as u64 > LAST_SECOND {
        return None;
    }
    Some(secs as u64)
}

fn is_recent(secs: u64, now: u64) -> bool
    requires { secs ≤ LAST_SECOND }
    ensures { result ≡ is_recent secs now }
{
    secs <= now && now <= secs + RECENT_SECONDS
}

/// The date and the time of day in UTC.
fn civil_at(secs: u64) -> CivilTime
    requires { secs ≤ LAST_SECOND }
    ensures value { result ≡ civil_of secs }
    ensures shown { IsShownTime result }
{
    let shown = datetime_at(secs);
    let year = year_number(shown.year());
    CivilTime {
        year,
        month: small_number(shown.month()),
        day: small_number(shown.day()),
        hour: small_number(shown.hour()),
        minute: small_number(shown.minute()),
    }
}

fn datetime_at(secs: u64) -> DateTime
    requires { secs ≤ LAST_SECOND }
    ensures { civil_nanos result ≡ pos (secs * 1_000_000_000) }
{
    let Ok(instant) = Timestamp::from_second(secs as i64) else {
        unreachable!()
    };
    Offset::UTC.to_datetime(instant)
}

fn year_number(year: i16) -> u16
    requires { pos 0 ≤ℤ year }
    ensures { pos result ≡ year }
{
    year as u16
}

fn small_number(n: i8) -> u8
    requires { pos 0 ≤ℤ n }
    ensures { pos result ≡ n }
{
    n as u8
}

fn push_civil(line: &mut String, time: CivilTime, is_recent: bool) -> Result<(), AllocError>
    requires { IsShownTime time }
    ensures { IfOk result (λ _. string_bytes line.new
        ≡ string_bytes line.old ++ civil_text time is_recent) }
{
    line.push_str(month_name(time.month))?;
    line.push(' ')?;
    push_two_places(line, time.day)?;
    if is_recent {
        push_clock(line, time.hour, time.minute)
    } else {
        push_year(line, time.year)
    }
}

fn month_name(month: u8) -> &'static str
    requires low { 1 ≤ month }
    requires high { month ≤ 12 }
    ensures { result.now ≡ month_text month }
{
    match month {
        1 => "Jan",
        2 => "Feb",
        3 => "Mar",
        4 => "Apr",
        5 => "May",
        6 => "Jun",
        7 => "Jul",
        8 => "Aug",
        9 => "Sep",
        10 => "Oct",
        11 => "Nov",
        _ => "Dec",
    }
}

fn push_clock(line: &mut String, hour: u8, minute: u8) -> Result<(), AllocError>
    requires hours { hour < 100 }
    requires minutes { minute < 100 }
    ensures { IfOk result (λ _. string_bytes line.new
        ≡ string_bytes line.old ++ 32 ∷ [] ++ two_digits hour ++ 58 ∷ [] ++ two_digits minute) }
{
    line.push(' ')?;
    push_two_digits(line, hour)?;
    line.push(':')?;
    push_two_digits(line, minute)
}

fn push_year(line: &mut String, year: u16) -> Result<(), AllocError>
    requires { year < 10000 }
    ensures { IfOk result (λ _. string_bytes line.new
        ≡ string_bytes line.old ++ 32 ∷ 32 ∷ [] ++ four_digits year) }
{
    line.push_str("  ")?;
    push_two_digits(line, (year / 100) as u8)?;
    push_two_digits(line, (year % 100) as u8)
}

fn push_two_digits(line: &mut String, n: u8) -> Result<(), AllocError>
    requires { n < 100 }
    ensures { IfOk result (λ _. string_bytes line.new ≡ string_bytes line.old ++ two_digits n) }
{
    line.push((b'0' + n / 10) as char)?;
    line.push((b'0' + n % 10) as char)
}

fn push_two_places(line: &mut String, n: u8) -> Result<(), AllocError>
    requires { n < 100 }
    ensures { IfOk result (λ _. string_bytes line.new ≡ string_bytes line.old ++ two_places n) }
{
    let first = if n < 10 { b' ' } else { b'0' + n / 10 };
    line.push(first as char)?;
    line.push((b'0' + n % 10) as char)
}
