//! Tests of allocations that fail or leak, and of devices that fail: no clause says how much memory a call
//! takes.
#![tactic(auto)]

#[cfg(test)]
mod any_core;
#[cfg(test)]
mod any_monitor;
#[cfg(test)]
mod block;
#[cfg(test)]
mod calls;
#[cfg(test)]
mod cores;
#[cfg(test)]
mod devices;
#[cfg(test)]
mod guards;
#[cfg(test)]
mod memory_kept;
#[cfg(test)]
mod monitors;
#[cfg(test)]
mod played;
#[cfg(test)]
mod refused;
#[cfg(test)]
mod refused_steps;
#[cfg(test)]
mod situations;
#[cfg(test)]
mod spoilt;
#[cfg(test)]
mod streamed;
#[cfg(test)]
mod texts;
#[cfg(test)]
mod windows;
