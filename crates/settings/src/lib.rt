// The card's settings: their ranges, their factory values and the strings that keep them.
#![tactic(auto)]

mod changes;
mod names;
mod sections;
mod strings;
mod values;

pub use names::{Message, Section, UnknownSection};
pub use values::{Baud, Entry, Group, Interval, Messages, Pulse, Setting, Settings, Systems};
