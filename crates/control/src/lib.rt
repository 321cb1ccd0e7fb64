//! What every access decides on the marks of one set: control, which is given no data byte.
//!
//! An access is answered by a `Step`: the plan of the bytes that move, what is added to the counters,
//! and what the access leaves in one line's marks and in its set. RAM is only ever asked for its length.
#![tactic(auto)]

mod access;
mod allocate;
mod formed;
mod geometry;
mod lines;
mod mark;
mod marks;
mod plan;
mod policy;
mod split;
mod stats;
mod sweep;

pub use access::serve;
pub use geometry::Geometry;
pub use mark::{Lines, Mark};
pub use marks::{Marks, Served};
pub use plan::{Access, Kind, Plan, Step, straight};
pub use split::Request;
pub use stats::CacheStats;
pub use sweep::{LineStep, Sweep};
