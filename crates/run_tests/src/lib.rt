//! Tests of what the program does: its forms, its texts, and each call on its input, its output and its wire that fails in
//! turn.
#![tactic(auto)]

#[cfg(test)]
mod nodes;
#[cfg(test)]
mod streams;
#[cfg(test)]
mod wires;
