//! Tests of the crates below the router: of texts, hashes, words, messages, clocks and sockets. They say what no contract says,
//! and compare with values from outside.
#![tactic(auto)]

#[cfg(test)]
mod adverts;
#[cfg(test)]
mod base;
#[cfg(test)]
mod cases;
#[cfg(test)]
mod clocks;
#[cfg(test)]
mod hashes;
#[cfg(test)]
mod io;
#[cfg(test)]
mod loopback;
#[cfg(test)]
mod wires;
