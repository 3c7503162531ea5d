// What has been checked: values of these types lie in their ranges.
// They repeat the fields of `Date`, `Time`, `Position` and `Fix`: a type has its ranges or has not, and one for both would ask of each reader which.
ghost use Rattle.std.specs.Prelude.{◌^◌, ◌<◌, ◌≤◌, pos, negsuc, ◌≤ℤ◌};
ghost use Rattle.fix.specs.Calendar.{month_length};

// A day of the calendar from 1999 to 2099.
#[derive(Clone, Copy)]
pub struct CheckedDate {
    pub year: u16,
    pub month: u8,
    pub day: u8,
    ghost years: { (1999 ≤ year) × (year ≤ 2099) },
    ghost months: { (1 ≤ month) × (month ≤ 12) },
    ghost days: { (1 ≤ day) × (day ≤ month_length year month) },
}

// A time of day, to the millisecond.
#[derive(Clone, Copy)]
pub struct CheckedTime {
    pub hour: u8,
    pub minute: u8,
    pub second: u8,
    pub ms: u16,
    ghost hours: { hour ≤ 23 },
    ghost minutes: { minute ≤ 59 },
    ghost seconds: { second ≤ 59 },
    ghost thousandths: { ms ≤ 999 },
}

// A position; the units are those of `Position`.
#[derive(Clone, Copy)]
pub struct CheckedPosition {
    pub latitude: i32,
    pub longitude: i32,
    pub altitude: i32,
    pub speed: u32,
    pub course: u32,
    pub hdop: u16,
    ghost latitudes: { (negsuc 53999999 ≤ℤ latitude) × (latitude ≤ℤ pos 54000000) },
    ghost longitudes: { (negsuc 107999999 ≤ℤ longitude) × (longitude ≤ℤ pos 108000000) },
    ghost altitudes: { (negsuc 99998 ≤ℤ altitude) × (altitude ≤ℤ pos 9999999) },
    ghost speeds: { speed ≤ 9999999 },
    ghost courses: { course ≤ 359999 },
    ghost hdops: { hdop ≤ 9999 },
}

// A fix that may go out: every number in its range.
#[derive(Clone, Copy)]
pub struct CheckedFix {
    pub date: CheckedDate,
    pub time: CheckedTime,
    pub run_time: u32,
    pub time_accuracy: u32,
    pub ms_error: u32,
    pub satellites: u8,
    pub position: Option<CheckedPosition>,
    ghost seen: { satellites ≤ 24 },
    ghost words: { (run_time < 2 ^ 32) × (time_accuracy < 2 ^ 32) × (ms_error < 2 ^ 32) },
}
