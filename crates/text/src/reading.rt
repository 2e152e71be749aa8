// Reading a command: a letter, and its numbers.
ghost use Rattle.std.specs.Prelude.{◌≡◌};
ghost use Rattle.text.specs.Commands.{command_of};

use crate::commands::Command;
use crate::words::{Reader, Unreadable};

// A line is at most this many bytes.
const LONGEST: usize = 80;

// The command that a line writes.
pub fn command(line: &[u8]) -> Result<Command, Unreadable>
    ensures { result ≡ command_of line.now }
{
    if line.len() > LONGEST {
        return Err(Unreadable { position: 1 });
    }
    let mut rest = Reader::of(line);
    // one match on the letters of the format, which reads as the table of commands does
    let command = match char::from(rest.letter()?) {
        'L' => Command::Line {
            accept_intercept: rest.decimal()?,
            reject_intercept: rest.decimal()?,
            slope: rest.decimal()?,
            cut_size: rest.whole()?,
            cut_number: rest.whole()?,
        },
        'S' => Command::Single {
            last_size: rest.whole()?,
            number: rest.whole()?,
        },
        'C' => {
            let size = rest.whole()?;
            let number = rest.whole()?;
            Command::Cut { size, number }
        }
        'O' => Command::Open { bay: rest.whole()? },
        'R' => Command::Read { bay: rest.whole()? },
        'X' => Command::Clear { bay: rest.whole()? },
        'I' => Command::Take {
            bay: rest.whole()?,
            count: rest.whole()?,
        },
        _ => return Err(Unreadable { position: 1 }),
    };
    rest.end()?;
    Ok(command)
}
