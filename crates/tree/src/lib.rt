// The component tree.
#![tactic(auto)]

pub mod buckets;
pub mod build;
pub mod joins;
pub mod levels;
pub mod list;
