// The inspection stand: 32 bays, one lot to a bay, and one plan that rules on all of them.
#![tactic(auto)]

pub mod bays;
pub mod calls;
pub mod histories;
pub mod records;
#[cfg(test)]
mod tests;
