// Patches: their figures, and the patch of a place, from the tree; the handbooks.
#![tactic(auto)]

pub mod cores;
pub mod figures;
pub mod handbook;
pub mod places;
