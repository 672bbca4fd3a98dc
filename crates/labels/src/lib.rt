// Labels of the components of a section, and the lowerable test that reads them.
#![tactic(auto)]

pub mod lowerable;
pub mod scan;
