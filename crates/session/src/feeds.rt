// Input that comes in pieces, cut into lines and answered line by line.
ghost use Rattle.std.specs.Prelude.{◌≤◌, length};

use crate::turns::Session;
use text::Text;

mod lines;

// A session, and the first bytes of a line that is not ended yet.
#[derive(Drop)]
pub struct Feed {
    session: Session,
    begun: Text,
    ghost short: { length begun ≤ 96 },
}

// How far a feed came: the bytes read, and those written.
#[derive(Clone, Copy)]
pub struct Progress {
    pub read: usize,
    pub written: usize,
}
