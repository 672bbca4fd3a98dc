// How far a pixel falls: where climbs in the tree meet, and the height at which the fall stops.
#![tactic(auto)]

pub mod fall;
pub mod meetings;
