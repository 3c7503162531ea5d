// A fix as it is handed over, and the check that makes a fix in range of it.
#![tactic(auto)]

ghost use Rattle.std.specs.Prelude.{◌≡◌, Some, nat_le};
ghost use Rattle.std.specs.Option.{option_map};
ghost use Rattle.fix.specs.Calendar.{leap, month_length};
ghost use Rattle.fix.specs.Ranges.{lawful_date, lawful_time, lawful_position, lawful_place};
ghost use Rattle.fix.specs.declared.Refusal.TheVariants.{DateOrTime, OutOfRange};
ghost use Rattle.fix.specs.Checks.{Checks, date_of, time_of, position_of, number_of, words, answer_of, check_answer};

mod checked;

pub use checked::{CheckedDate, CheckedFix, CheckedPosition, CheckedTime};
use std::fmt;

// A date as handed over, which may be none of the calendar.
#[derive(Clone, Copy)]
pub struct Date {
    pub year: u16,
    pub month: u8,
    pub day: u8,
}

// A time of day as handed over.
#[derive(Clone, Copy)]
pub struct Time {
    pub hour: u8,
    pub minute: u8,
    pub second: u8,
    pub ms: u16,
}

// A position as handed over: angles in ten-thousandths of a minute (north and east above zero), altitude in cm,
// speed in thousandths of a knot, course in thousandths of a degree, HDOP in hundredths.
#[derive(Clone, Copy)]
pub struct Position {
    pub latitude: i32,
    pub longitude: i32,
    pub altitude: i32,
    pub speed: u32,
    pub course: u32,
    pub hdop: u16,
}

// A fix as handed over; time accuracy and ms error are four bytes each, low byte first, that nobody interprets.
#[derive(Clone, Copy)]
pub struct Fix {
    pub date: Date,
    pub time: Time,
    pub run_time: u32,
    pub time_accuracy: u32,
    pub ms_error: u32,
    pub satellites: u8,
    pub position: Option<Position>,
}

// Why a fix is refused, with its number.
#[derive(Clone, Copy, PartialEq, Eq, Debug)]
pub enum Refusal {
    DateOrTime = 4,
    OutOfRange = 5,
}

impl Refusal {
    // A From for u8 would not say which number is meant, and a trait would have this body for each enum: neither is plainer.
    pub fn number(self) -> u8
        ensures { result ≡ number_of self }
    {
        self as u8
    }
}

impl fmt::Display for Refusal {
    ghost output = { λ refusal. Some (words refusal) };

    fn fmt<W: fmt::Write>(&self, f: &mut fmt::Formatter<W>) -> fmt::Result {
        f.write_str(match self {
            Refusal::DateOrTime => "date or time",
            Refusal::OutOfRange => "a number out of range",
        })
    }
}

fn is_leap(year: u16) -> bool
    ensures { result ≡ leap year }
{
    year % 4 == 0 && (year % 100 != 0 || year % 400 == 0)
}

// How many days a month has.
fn month_length(year: u16, month: u8) -> u8
    ensures { result ≡ month_length year month }
{
    match month {
        2 if is_leap(year) => 29,
        2 => 28,
        4 | 6 | 9 | 11 => 30,
        _ => 31,
    }
}

impl TryFrom<Date> for CheckedDate {
    type Error = Refusal;

    // The date, if the calendar has it from 1999 to 2099.
    ghost try_from_gives = { Checks lawful_date date_of DateOrTime };

    fn try_from(date: Date) -> Result<CheckedDate, Refusal> {
        let Date { year, month, day } = date;
        if year < 1999 || year > 2099 || month < 1 || month > 12 {
            return Err(Refusal::DateOrTime);
        }
        if day < 1 || day > month_length(year, month) {
            return Err(Refusal::DateOrTime);
        }
        Ok(CheckedDate { year, month, day })
    }
}

impl TryFrom<Time> for CheckedTime {
    type Error = Refusal;

    // The time, if a day has it.
    ghost try_from_gives = { Checks lawful_time time_of DateOrTime };

    fn try_from(time: Time) -> Result<CheckedTime, Refusal> {
        let Time {
            hour,
            minute,
            second,
            ms,
        } = time;
        if hour > 23 || minute > 59 || second > 59 || ms > 999 {
            return Err(Refusal::DateOrTime);
        }
        Ok(CheckedTime {
            hour,
            minute,
            second,
            ms,
        })
    }
}

impl TryFrom<Position> for CheckedPosition {
    type Error = Refusal;

    // The position, if each of its numbers is in range.
    ghost try_from_gives = { Checks lawful_position position_of OutOfRange };

    fn try_from(position: Position) -> Result<CheckedPosition, Refusal> {
        let Position {
            latitude,
            longitude,
            altitude,
            speed,
            course,
            hdop,
        } = position;
        if latitude < -54_000_000
            || latitude > 54_000_000
            || longitude < -108_000_000
            || longitude > 108_000_000
        {
            return Err(Refusal::OutOfRange);
        }
        if altitude < -99_999 || altitude > 9_999_999 {
            return Err(Refusal::OutOfRange);
        }
        if speed > 9_999_999 || course > 359_999 || hdop > 9_999 {
            return Err(Refusal::OutOfRange);
        }
        Ok(CheckedPosition {
            latitude,
            longitude,
            altitude,
            speed,
            course,
            hdop,
        })
    }
}

// The number of satellites, if it is in range.
fn checked_satellites(count: u8) -> Result<u8, Refusal>
    ensures { Checks (λ n. nat_le n 24) (λ n. n) OutOfRange count result }
{
    if count > 24 {
        return Err(Refusal::OutOfRange);
    }
    Ok(count)
}

// The position, if there is one, in range.
fn checked_place(place: Option<Position>) -> Result<Option<CheckedPosition>, Refusal>
    ensures { Checks lawful_place (option_map position_of) OutOfRange place result }
{
    place.map(CheckedPosition::try_from).transpose()
}

impl TryFrom<Fix> for CheckedFix {
    type Error = Refusal;

    // The fix, if every number is in its range; a wrong date or time is told first.
    ghost try_from_gives = { λ fix r. answer_of r ≡ check_answer fix };

    fn try_from(fix: Fix) -> Result<CheckedFix, Refusal> {
        let date = fix.date.try_into()?;
        let time = fix.time.try_into()?;
        let satellites = checked_satellites(fix.satellites)?;
        let position = checked_place(fix.position)?;
        Ok(CheckedFix {
            date,
            time,
            run_time: fix.run_time,
            time_accuracy: fix.time_accuracy,
            ms_error: fix.ms_error,
            satellites,
            position,
        })
    }
}

// The same of a fix that stays with its owner.
pub fn check(fix: &Fix) -> Result<CheckedFix, Refusal>
    ensures { answer_of result ≡ check_answer fix.now }
{
    CheckedFix::try_from(*fix)
}
