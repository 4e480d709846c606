//! Cases of `cc_io`: reading and writing over devices that fail, that give little at a time, and that run full.
#![tactic(auto)]

#[cfg(test)]
mod tests;
