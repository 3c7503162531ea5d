// The messages of known fixes, byte for byte.
#![tactic(auto)]

#[cfg(test)]
mod tests;
