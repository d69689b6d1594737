// An office's questions for hosts in C and Rust, which `sawmauve` exports: logs, a run of a berth on paper, the way of one slot, dates
// and lines.
#![tactic(auto)]

pub mod follow;
pub mod lines;
pub mod logs;
pub mod names;
pub mod simulating;
