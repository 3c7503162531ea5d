// A timing card that is sent bytes, on a settings memory of any make.
#![tactic(auto)]

mod answers;
mod card;
mod hearing;
mod parts;
mod refusal;
mod tally;

pub use parts::Card;
pub use refusal::Refusal;
