// The lines of a session: reading a command, and assembling a reply.
#![tactic(auto)]

mod commands;
mod cuts;
mod numerals;
mod reading;
mod texts;
mod words;

pub use commands::Command;
pub use cuts::cut;
pub use numerals::{decimal, whole};
pub use reading::command;
pub use texts::Text;
pub use words::{Reader, Unreadable};
