// The map of a job: request M-103, "Jobs that number from 0". Its definitions are in crates/rules/specs/Maps.antt.

#![tactic(auto)]

pub mod judging;
pub mod node_map;
pub mod turning;
