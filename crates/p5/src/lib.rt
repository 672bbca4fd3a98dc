// Reading one P5 file.
#![tactic(auto)]

pub mod characters;
pub mod field;
pub mod file;
pub mod header;
pub mod reader;
pub mod samples;
