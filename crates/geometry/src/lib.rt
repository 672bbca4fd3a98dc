// Accepted pictures and their grids.
#![tactic(auto)]

pub use crate::grid::{STEPS, neighbours};

pub mod adjacency;
pub mod grid;
pub mod raster;
