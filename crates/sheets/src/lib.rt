// The sheet: two lines that tell the settings, their names and their values.
#![tactic(auto)]

mod refusal;
mod sheet;

pub use refusal::Refusal;
pub use sheet::write_sheet;
