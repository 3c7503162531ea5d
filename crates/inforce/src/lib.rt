// The settings in force on a memory of any make, and what commands do to both.
#![tactic(auto)]

mod obeying;
mod parts;
mod sections;

pub use parts::InForce;
