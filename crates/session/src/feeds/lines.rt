// Lines of an input, answered as they end.
ghost use Rattle.std.specs.Prelude.{◌≡◌, ◌≤◌, [], ◌++◌, length};
ghost use Rattle.session.specs.Feeds.{EndsLine, Fed, Finished, LinesPart, PiecesJoin, kept};
ghost use Rattle.session.specs.Sessions.{told_line};
ghost use Rattle.session.specs.Turns.{view};
ghost use Rattle.session.specs.Turns.State.{waiting};

use super::{Feed, Progress};
use crate::faults::RefusedLine;
use crate::turns::{REPLY_ROOM, Session};
use std::mem;
use text::{Text, cut};

impl Feed {
    // A new session, and no line begun. The laws of lines and of pieces stand here too.
    pub fn new() -> Feed
        ensures view { view result.session ≡ waiting }
        ensures number { result.session.line ≡ 0 }
        ensures kept { kept result ≡ [] }
        ensures lines { LinesPart }
        ensures pieces { PiecesJoin }
    {
        Feed {
            session: Session::new(),
            begun: Text::new(),
        }
    }

    // Ends a line with its last part, and writes the reply to it at the front of the buffer, if it may hold any reply.
    fn end_line(&mut self, part: &[u8], buffer: &mut [u8]) -> Option<usize>
        ensures { EndsLine self.old self.new part.now buffer.old buffer.new result }
    {
        let out = buffer.first_chunk_mut::<REPLY_ROOM>()?;
        if self.begun.is_empty() {
            return Some(self.session.reply(part, out));
        }
        self.begun.put(part);
        let line = mem::replace(&mut self.begun, Text::new());
        Some(self.session.reply(line.as_bytes(), out))
    }

    // Reads an input and answers each line that it ends, until it is read or the buffer may not hold another reply.
    // A buffer of at least 96 bytes holds one.
    pub fn feed(&mut self, input: &[u8], buffer: &mut [u8]) -> Progress
        ensures { Fed self.old self.new input.now buffer.old buffer.new result }
    {
        let mut rest = input;
        let mut written = 0;
        // tried as `while let`: the proof can then not name what comes after the line feed
        loop {
            let (part, after) = cut(rest, b'\n');
            let Some(after) = after else {
                break;
            };
            let Some(n) = self.end_line(part, &mut buffer[written..]) else {
                let read = input.len() - rest.len();
                return Progress { read, written };
            };
            written += n;
            rest = after;
        }
        self.begun.put(rest);
        let read = input.len();
        Progress { read, written }
    }

    // At the end of the input: answers a line that was begun and not ended, if there is one.
    pub fn finish(&mut self, buffer: &mut [u8]) -> Result<usize, RefusedLine>
        ensures { Finished self.old self.new (kept self.old) buffer.old buffer.new (told_line result) }
    {
        if self.begun.is_empty() {
            return Ok(0);
        }
        let line = mem::replace(&mut self.begun, Text::new());
        self.session.answer(line.as_bytes(), buffer)
    }
}
