// The inspection stand at a terminal or on a pipe: one reply line for each line of standard input.
#![tactic(auto)]

use session::feeds::Feed;
use std::io;
use std::io::{ErrorKind, Read, Write};

// Input is read, and replies are written, in blocks of at most this many bytes.
const BLOCK: usize = 65_536;

// Answers the lines of a block and writes the replies before more is read.
fn answer<W: Write>(
    feed: &mut Feed,
    block: &[u8],
    buffer: &mut [u8; BLOCK],
    out: &mut W,
) -> io::Result<()> {
    let mut rest = block;
    while !rest.is_empty() {
        let progress = feed.feed(rest, buffer);
        out.write_all(&buffer[..progress.written])?;
        rest = &rest[progress.read..];
    }
    Ok(())
}

fn inspect(rt: &HostRuntime) -> anyhow::Result<()> {
    let mut input = [0u8; BLOCK];
    let mut buffer = [0u8; BLOCK];
    let mut feed = Feed::new();
    let mut stdin = rt.stdin();
    let mut stdout = rt.stdout();
    // counted, since a loop that may never end asks for leave to wait, which this program has not
    for _ in 0..u64::MAX {
        let n = match stdin.read(&mut input) {
            Ok(n) => n,
            Err(e) if e.kind() == ErrorKind::Interrupted => continue,
            Err(e) => return Err(e.into()),
        };
        if n == 0 {
            break;
        }
        answer(&mut feed, &input[..n], &mut buffer, &mut stdout)?;
    }
    if let Ok(n) = feed.finish(&mut buffer) {
        stdout.write_all(&buffer[..n])?;
    }
    Ok(())
}

fn main(rt: HostRuntime) -> anyhow::Result<()> {
    inspect(&rt)
}
