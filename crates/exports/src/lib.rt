// What Rust and C call: each function fronts one public call of the crates below, over slices and numbers. Their parameters and arrays are the C
// interface, as include/dampfeather.h declares it: a state comes in as numbers; the answer goes out as numbers, in an array that the caller lends.
// Nothing is asked of the caller, and a refusal writes its answer and nothing else. A usize goes out by `as u64`, which loses nothing of it: no
// `u64::from` takes one.
#![tactic(auto)]

pub mod escaping;
pub mod framing;
pub mod groups;
mod numbers;
pub mod reading;
pub mod writing;
