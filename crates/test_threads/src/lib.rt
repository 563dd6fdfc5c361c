//! Tests of threads: of the lock under a monitor, of parkings, and of the front types that many threads call.
#![tactic(auto)]

#[cfg(test)]
mod asks;
#[cfg(test)]
mod beside;
#[cfg(test)]
mod chance;
#[cfg(test)]
mod memory;
#[cfg(test)]
mod noted;
#[cfg(test)]
mod parking;
#[cfg(test)]
mod plays;
#[cfg(test)]
mod predicates;
#[cfg(test)]
mod readers;
#[cfg(test)]
mod storms;
#[cfg(test)]
mod tales;
#[cfg(test)]
mod word_locks;
