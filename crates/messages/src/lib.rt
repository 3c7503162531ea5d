// The messages that go out at a fix.
#![tactic(auto)]

mod address;
mod fields;
mod gga;
mod gll;
mod line;
mod rmc;
mod sentence;
mod time_utc;
mod zda;

pub use gga::Gga;
pub use gll::Gll;
pub use line::Line;
pub use rmc::Rmc;
pub use sentence::{Sentence, write_message};
pub use time_utc::write_time_utc;
pub use zda::Zda;
