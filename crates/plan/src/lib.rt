// Sampling plans: what a plan means, the makes of plan, kinds of item, and the ruling on a count.
#![tactic(auto)]

pub mod carried;
pub mod cut;
pub mod examples;
pub mod items;
pub mod line;
pub mod numbers;
pub mod plans;
pub mod refusals;
pub mod single;
#[cfg(test)]
mod tests;
pub mod verdicts;
