// The settings and their ranges: no value out of its range can be made.
// Codes and masks are numbers here, as in the strings and frames that carry them: an enum would be turned into that number and back at each edge.
ghost use Rattle.std.specs.Prelude.{◌≡◌, ◌-◌, ◌<◌, ◌≤◌, length};

use crate::names::Message;

// The baud code of the serial port.
#[derive(Clone, Copy)]
pub struct Baud {
    pub code: u8,
    ghost range: { code ≤ 5 },
}

// The time between two fixes, in milliseconds.
#[derive(Clone, Copy)]
pub struct Interval {
    pub milliseconds: u16,
    ghost low: { 100 ≤ milliseconds },
    ghost high: { milliseconds ≤ 10000 },
}

// The satellite systems in use, one bit each.
#[derive(Clone, Copy)]
pub struct Systems {
    pub mask: u8,
    ghost low: { 1 ≤ mask },
    ghost high: { mask ≤ 7 },
}

// The two settings of the navigation section.
#[derive(Clone, Copy)]
pub struct Navigation {
    pub interval: Interval,
    pub systems: Systems,
}

// The time pulse, in microseconds; nobody interprets the delay bytes.
#[derive(Clone, Copy)]
pub struct Pulse {
    pub interval: u32,
    pub width: u32,
    pub enable: u8,
    pub polarity: u8,
    pub reference: u8,
    pub source: u8,
    pub delay: [u8; 4],
    ghost four: { length delay ≡ 4 },
    ghost fits: { interval < 4294967296 },
    ghost shorter: { width < interval },
    ghost enable_range: { enable ≤ 3 },
    ghost polarity_range: { polarity ≤ 1 },
    ghost reference_range: { reference ≤ 1 },
}

// The group settings, which the card keeps and does not interpret.
#[derive(Clone, Copy)]
pub struct Group {
    pub bytes: [u8; 56],
    ghost whole: { length bytes ≡ 56 },
}

// A message's rate and the fixes counted towards it, modulo the rate; 0 where the rate is 0.
#[derive(Clone, Copy)]
pub struct Entry {
    pub rate: u8,
    pub count: u8,
    ghost below: { count ≤ rate - 1 },
}

// The entries of the five messages, in the order in which the messages go out.
#[derive(Clone, Copy)]
pub struct Messages {
    pub entries: [Entry; 5],
}

// All settings together; the five rates stand in the table of messages.
#[derive(Clone, Copy)]
pub struct Settings {
    pub baud: Baud,
    pub messages: Messages,
    pub interval: Interval,
    pub systems: Systems,
    pub pulse: Pulse,
    pub group: Group,
    ghost five: { length messages.entries ≡ 5 },
}

// One setting with its value.
#[derive(Clone, Copy)]
pub enum Setting {
    Baud(Baud),
    Rate(Message, u8),
    Interval(Interval),
    Systems(Systems),
    Pulse(Pulse),
    Group(Group),
}
