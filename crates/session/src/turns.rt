// Where a session stands, and what an accepted command is answered.
use crate::chosen::{Base, Chosen};
use plan::items::Mark;
use stand::bays::Stand;
use stand::records::{Call, Reply};

mod acts;
mod sessions;

pub use sessions::{LAST_LINE, REPLY_ROOM};

// No plan yet; a plan that may still be cut; or a stand at work.
#[derive(Clone, Copy)]
pub enum Turn {
    NoPlan,
    Fresh(Base),
    Working(Stand<Mark, Chosen>),
}

// A session: its turn, and the number of the last line.
#[derive(Drop)]
pub struct Session {
    turn: Turn,
    line: u32,
}

// The answer to a command: a plan, by its last size, or what the stand replies to a call.
#[derive(Clone, Copy)]
pub enum Answer {
    Planned(u32),
    Served(Call, Reply),
}
