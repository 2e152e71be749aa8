// A session, line by line.
ghost use Rattle.std.specs.Prelude.{◌≡◌};
ghost use Rattle.session.specs.Sessions.{Answered, heard, next_line, reply_to, told_line};
ghost use Rattle.session.specs.Replies.{Spelt};
ghost use Rattle.session.specs.Turns.State.{waiting};
ghost use Rattle.session.specs.Turns.{standing, told, view};

use super::{Answer, Session, Turn};
use crate::faults::{RefusedLine, SessionFault};
use crate::replies::{spell_answer, spell_refusal};
use text::command;

// A reply buffer has at least this many bytes.
pub const REPLY_ROOM: usize = 96;

// Lines count up to this number, and stay there.
pub const LAST_LINE: u32 = 999_999;

// The number of the line after one.
fn next_number(line: u32) -> u32
    ensures { result ≡ next_line line }
{
    line.saturating_add(1).min(LAST_LINE)
}

// Reads a line and does what it says.
fn obey(turn: &mut Turn, line: &[u8]) -> Result<Answer, SessionFault>
    ensures { (standing turn.new, told result) ≡ heard (standing turn.old) line.now }
{
    turn.act(command(line)?)
}

impl Session {
    // No plan yet, and no line.
    pub fn new() -> Session
        ensures view { view result ≡ waiting }
        ensures line { result.line ≡ 0 }
    {
        Session {
            turn: Turn::NoPlan,
            line: 0,
        }
    }

    // Answers one line, given without its line feed: writes the reply line at the front of the buffer, and says how
    // long it is.
    pub(crate) fn reply(&mut self, line: &[u8], out: &mut [u8; REPLY_ROOM]) -> usize
        ensures state { view self.new ≡ (heard (view self.old) line.now).0 }
        ensures number { self.new.line ≡ next_line self.old.line }
        ensures spelt { Spelt (reply_to (view self.old) line.now (next_line self.old.line)) out.old out.new result }
    {
        self.line = next_number(self.line);
        match obey(&mut self.turn, line) {
            Ok(answer) => spell_answer(out, answer),
            Err(fault) => spell_refusal(out, fault.into(), self.line),
        }
    }

    // The same for any buffer. One of less than 96 bytes is refused, but the line counts.
    pub fn answer(&mut self, line: &[u8], buffer: &mut [u8]) -> Result<usize, RefusedLine>
        ensures { Answered (view self.old) (view self.new) self.old.line self.new.line line.now buffer.old buffer.new (told_line result) }
    {
        let Some(out) = buffer.first_chunk_mut::<REPLY_ROOM>() else {
            self.line = next_number(self.line);
            return Err(RefusedLine {
                fault: SessionFault::ShortBuffer,
                line: self.line,
            });
        };
        Ok(self.reply(line, out))
    }
}
