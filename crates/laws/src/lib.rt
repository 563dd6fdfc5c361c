//! Laws of the definitions, most of them with a counterexample.
//!
//! The counterexample of a law of legal histories is a history that violates the law and isn't legal. Two of
//! these laws have none: `no_more_wait_than_seats` and `whoever_owns_is_idle`. A law that holds of every
//! history, such as `no_wake_is_lost`, can have none.
//!
//! A law is the contract of a function with no parameters and an empty body. It uses the definitions of
//! `history` alone, so it holds for whatever satisfies them.
#![tactic(auto)]

pub mod bases;
pub mod conservation;
pub mod order;
pub mod ownership;
pub mod results;
pub mod room;
pub mod waiting;
pub mod waking;
