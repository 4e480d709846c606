//! Cases of `flatterm`: walks over flat terms, splices, and terms at the limits of size. They stand apart, since a crate with
//! tests of its own is proved twice.
#![tactic(auto)]

#[cfg(test)]
mod large;
#[cfg(test)]
mod samples;
#[cfg(test)]
mod splices;
#[cfg(test)]
mod walks;
