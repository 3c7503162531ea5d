// A fix as a person types it, one to a line.
use fix::{Date, Fix, Position, Time};
use settings::Systems;
use std::fmt;
use std::str::{FromStr, SplitWhitespace};

// The words of a line.
#[derive(Clone, Copy)]
pub enum Word {
    Date,
    Time,
    Systems,
    RunTime,
    TimeAccuracy,
    MsError,
    Satellites,
    Latitude,
    Longitude,
    Altitude,
    Speed,
    Course,
    Hdop,
}

impl fmt::Display for Word {
    fn fmt<W: fmt::Write>(&self, f: &mut fmt::Formatter<W>) -> fmt::Result {
        f.write_str(match self {
            Word::Date => "date",
            Word::Time => "time",
            Word::Systems => "systems",
            Word::RunTime => "run time",
            Word::TimeAccuracy => "time accuracy",
            Word::MsError => "ms error",
            Word::Satellites => "satellites",
            Word::Latitude => "latitude",
            Word::Longitude => "longitude",
            Word::Altitude => "altitude",
            Word::Speed => "speed",
            Word::Course => "course",
            Word::Hdop => "HDOP",
        })
    }
}

impl Word {
    fn form(self) -> &'static str {
        match self {
            Word::Date => "year-month-day",
            Word::Time =>
                "hour:minute:second.ms with at least three digits of ms, no leading zero beyond three",
            Word::Systems => "a number from 1 to 7",
            Word::TimeAccuracy | Word::MsError => "eight hex digits",
            Word::Satellites => "a number from 0 to 255",
            Word::Hdop => "a number from 0 to 65535",
            Word::RunTime | Word::Speed | Word::Course => "a number from 0 to 4294967295",
            _ => "a number from -2147483648 to 2147483647",
        }
    }
}

// What keeps a line from being a fix.
#[derive(Clone, Copy)]
pub enum Fault {
    Missing(Word),
    Wrong(Word),
    TooMany,
    NoText,
}

impl fmt::Display for Fault {
    fn fmt<W: fmt::Write>(&self, f: &mut fmt::Formatter<W>) -> fmt::Result {
        match self {
            Fault::Missing(word) => write!(f, "{word} is missing"),
            Fault::Wrong(word) => {
                let form = word.form();
                write!(f, "{word} is not {form}")
            }
            Fault::TooMany => write!(f, "more than 13 words"),
            Fault::NoText => write!(f, "not text"),
        }
    }
}

fn number<T: FromStr>(word: Word, text: &str) -> Result<T, Fault>
where
    T::Err: Drop,
{
    text.parse().map_err(|_| Fault::Wrong(word))
}

// A date; no `FromStr`, since the type is another crate's, as those of the next two are.
fn date(text: &str) -> Result<Date, Fault> {
    let wrong = Fault::Wrong(Word::Date);
    let (year, rest) = text.split_once('-').ok_or(wrong)?;
    let (month, day) = rest.split_once('-').ok_or(wrong)?;
    Ok(Date {
        year: number(Word::Date, year)?,
        month: number(Word::Date, month)?,
        day: number(Word::Date, day)?,
    })
}

// Milliseconds have three digits, or more with no leading zero, so that neither .5 nor .0005 is taken for 5 ms.
fn time(text: &str) -> Result<Time, Fault> {
    let wrong = Fault::Wrong(Word::Time);
    let (hour, rest) = text.split_once(':').ok_or(wrong)?;
    let (minute, rest) = rest.split_once(':').ok_or(wrong)?;
    let (second, ms) = rest.split_once('.').ok_or(wrong)?;
    if ms.len() < 3 || ms.len() > 3 && ms.starts_with('0') {
        return Err(wrong);
    }
    Ok(Time {
        hour: number(Word::Time, hour)?,
        minute: number(Word::Time, minute)?,
        second: number(Word::Time, second)?,
        ms: number(Word::Time, ms)?,
    })
}

// Four bytes in hex, in the order in which they are sent.
fn four_bytes(word: Word, text: &str) -> Result<u32, Fault> {
    if text.len() != 8 || text.starts_with('+') {
        return Err(Fault::Wrong(word));
    }
    let n = u32::from_str_radix(text, 16).map_err(|_| Fault::Wrong(word))?;
    Ok(u32::from_le_bytes(n.to_be_bytes()))
}

// The next word of a line.
fn next<'a>(words: &mut SplitWhitespace<'a>, word: Word) -> Result<&'a str, Fault> {
    words.next().ok_or(Fault::Missing(word))
}

// The number in the next word of a line.
fn next_number<T: FromStr>(words: &mut SplitWhitespace<'_>, word: Word) -> Result<T, Fault>
where
    T::Err: Drop,
{
    number(word, next(words, word)?)
}

// The position, from its first word and the words that follow.
fn position(latitude: &str, words: &mut SplitWhitespace<'_>) -> Result<Position, Fault> {
    let position = Position {
        latitude: number(Word::Latitude, latitude)?,
        longitude: next_number(words, Word::Longitude)?,
        altitude: next_number(words, Word::Altitude)?,
        speed: next_number(words, Word::Speed)?,
        course: next_number(words, Word::Course)?,
        hdop: next_number(words, Word::Hdop)?,
    };
    if words.next().is_some() {
        return Err(Fault::TooMany);
    }
    Ok(position)
}

fn moment(words: &mut SplitWhitespace<'_>) -> Result<(Date, Time), Fault> {
    let date = date(next(words, Word::Date)?)?;
    let time = time(next(words, Word::Time)?)?;
    Ok((date, time))
}

// Run time, time accuracy and ms error, a tuple on their way into the fix.
fn clock(words: &mut SplitWhitespace<'_>) -> Result<(u32, u32, u32), Fault> {
    let run_time = next_number(words, Word::RunTime)?;
    let time_accuracy = four_bytes(Word::TimeAccuracy, next(words, Word::TimeAccuracy)?)?;
    let ms_error = four_bytes(Word::MsError, next(words, Word::MsError)?)?;
    Ok((run_time, time_accuracy, ms_error))
}

// The position of six words, or none of none.
fn place(words: &mut SplitWhitespace<'_>) -> Result<Option<Position>, Fault> {
    words
        .next()
        .map(|latitude| position(latitude, words))
        .transpose()
}

// The fix of a line, and the systems in use.
pub fn read_fix(line: &str) -> Result<(Fix, Systems), Fault> {
    let mut words = line.split_whitespace();
    let (date, time) = moment(&mut words)?;
    let systems = next_number(&mut words, Word::Systems)?;
    let (run_time, time_accuracy, ms_error) = clock(&mut words)?;
    let satellites = next_number(&mut words, Word::Satellites)?;
    let position = place(&mut words)?;
    let systems = Systems::new(systems).ok_or(Fault::Wrong(Word::Systems))?;
    let fix = Fix {
        date,
        time,
        run_time,
        time_accuracy,
        ms_error,
        satellites,
        position,
    };
    Ok((fix, systems))
}
