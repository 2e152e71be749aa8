// Assembling a short text, and taking it out.
ghost use Rattle.std.specs.Prelude.{◌≡◌, ◌≤◌, ◌↔◌, [], ◌∷◌, length, IsTrue};
ghost use Rattle.text.specs.Texts.{added};

use std::fmt;
use std::fmt::{Formatter, Write};
use std::marker::Model;

// A text has room for this many bytes.
const ROOM: usize = 96;

// What is written so far is the first `len` bytes; the others are noughts. No `ArrayVec`, which is not `Copy`.
#[derive(Clone, Copy, PartialEq, Eq)]
pub struct Text {
    bytes: [u8; ROOM],
    len: usize,
}

// A text is seen as its bytes.
impl Model for Text {
    ghost use Rattle.std.specs.Prelude.{ℕ, ◌≡◌, ◌≤◌, List, take, length};
    ghost use Rattle.text.specs.Texts.{filled};
    ghost use Rattle.text.specs.TextLemmas.{filled_front};

    ghost Value = { List ℕ };

    ghost view = { λ t. take t.len t.bytes };

    ghost invariant = { λ t. (t.len ≤ 96) × (t.bytes ≡ filled (take t.len t.bytes)) };

    ghost inverse = { λ bytes. record { bytes = filled bytes; len = length bytes } };

    ghost inverse_ok = { λ t h. filled_front t h };
}

impl fmt::Debug for Text {
    fn fmt<W: Write>(&self, f: &mut Formatter<W>) -> Result<(), fmt::Error> {
        f.debug_struct("Text")
            .field("bytes", &self.as_bytes())
            .finish()
    }
}

impl Text {
    // Nothing written yet.
    pub fn new() -> Text
        ensures { result ≡ [] }
    {
        Text {
            bytes: [0; ROOM],
            len: 0,
        }
    }

    // Adds a byte, where it fits.
    fn push(&mut self, byte: u8)
        ensures { self.new ≡ added self.old (byte ∷ []) }
    {
        if self.len < ROOM {
            self.bytes[self.len] = byte;
            self.len += 1;
        }
    }

    // What is written.
    pub fn as_bytes(&self) -> &[u8]
        ensures bytes { result.now ≡ self.now }
        ensures short { length result.now ≤ 96 }
    {
        &self.bytes[..self.len]
    }

    // Whether nothing is written.
    pub fn is_empty(&self) -> bool
        ensures { IsTrue result ↔ (self.now ≡ []) }
    {
        self.len == 0
    }

    // Adds bytes, as many as fit.
    pub fn put(&mut self, part: &[u8])
        ensures { self.new ≡ added self.old part.now }
    {
        // of a long line most bytes find no room
        if self.len == ROOM {
            return;
        }
        let fits = (ROOM - self.len).min(part.len());
        let front = &part[..fits];
        for b in front {
            self.push(*b);
        }
    }
}
