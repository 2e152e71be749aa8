// Acceptability sheets: which counts a plan lets a series reach, and how it rules on them.
#![tactic(auto)]

pub mod comparing;
pub mod drawing;
pub mod examples;
pub mod extents;
pub mod faults;
mod loading;
pub mod rows;
pub mod tables;
mod walks;
