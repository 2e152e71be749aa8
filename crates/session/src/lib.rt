// A session: one line in, one reply line out. Its items are marks.
#![tactic(auto)]

pub mod chosen;
pub mod faults;
pub mod feeds;
mod replies;
pub mod turns;
