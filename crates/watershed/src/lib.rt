// The watershed: the run of falls, and the whole.
#![tactic(auto)]

pub mod run;
pub mod whole;
