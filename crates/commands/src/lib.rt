// What a frame or a sentence asks of the card.
#![tactic(auto)]

mod command;
mod fields;
mod frames;
mod items;
mod query;
mod sentences;

pub use command::{Command, Outcome, Query, Rates, Sections, Start, Unheeded, UnknownStart};
pub use items::decode;
