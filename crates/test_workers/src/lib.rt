//! Tests of scripts that threads run: what gates see and stop, and runs that lack memory.
#![tactic(auto)]

#[cfg(test)]
mod gated;
#[cfg(test)]
mod gates;
#[cfg(test)]
mod memory;
#[cfg(test)]
mod runs;
#[cfg(test)]
mod texts;
