// What a call has written and counted so far.

#[derive(Clone, Copy, Debug, Default, PartialEq, Eq)]
pub struct Tally {
    pub written: usize,
    pub accepted: usize,
    pub down: usize,
}
