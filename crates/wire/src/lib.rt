// What stands on the serial line: writing it and reading it.
#![tactic(auto)]

mod frame;
mod item;
mod laws;
mod laying;
mod place;
mod reading;
mod refusal;
mod sentence;
mod tries;

pub use item::{Frame, Item};
pub use laws::line_stands;
pub use place::Place;
pub use reading::{Ending, Found, read_next};
pub use refusal::Refusal;
pub use sentence::write_sentence;
