//! A cache level: opening.
//!
//! Nothing here has a `requires`. What cannot be done is refused, by a `Refusal` that has a number and a
//! place.
#![tactic(auto)]

mod cache;
mod refusal;

pub use cache::{Cache, Opened};
pub use refusal::Refusal;
