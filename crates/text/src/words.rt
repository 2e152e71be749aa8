// The words of a line, read one after the other.
ghost use Rattle.std.specs.Prelude.{◌≡◌, MatchOption, Option, option_copied, ok_or};
ghost use Rattle.std.specs.Fn.{FnOnceReturnsAt};
ghost use Rattle.text.specs.Numerals.{whole_of, decimal_of};
ghost use Rattle.text.specs.Words.{words, Parts};
ghost use Rattle.text.specs.Readers.{first_word, past_word, letter_of, word_by, end_at, unreadable};

use crate::cuts::cut;
use crate::numerals;
use std::marker::Model;

// A line that does not read: the position of its first bad, missing or extra word, counted from 1.
#[derive(Clone, Copy, Debug, PartialEq, Eq)]
pub struct Unreadable {
    pub position: u32,
}

// What is left of a line, from a word's start, and the position of that word. The library's `split` would do for the rest,
// but its type has that of a closure in it, which this public type would have to hand on.
#[derive(Debug, Drop)]
pub struct Reader<'a> {
    rest: Option<&'a [u8]>,
    position: u32,
}

// A reader is seen as the words not yet read, and the position of the first of them.
impl<'a> Model for Reader<'a> {
    ghost use Rattle.std.specs.Prelude.{option_copied};
    ghost use Rattle.text.specs.Readers.{Unread, words_in};

    ghost Value = { Unread };

    ghost view = { λ r. record { left = words_in (option_copied r.rest); position = r.position } };
}

// A word that is just one byte.
fn letter(word: &[u8]) -> Option<u8>
    ensures { result ≡ letter_of word.now }
{
    match word {
        [b] => Some(*b),
        _ => None,
    }
}

impl<'a> Reader<'a> {
    // At the first word of the line.
    pub fn of(line: &'a [u8]) -> Reader<'a>
        ensures left { result.left ≡ words line.now }
        ensures position { result.position ≡ 1 }
        ensures parts { Parts line.now (words line.now) }
    {
        Reader {
            rest: Some(line),
            position: 1,
        }
    }

    // The next word, if there is one.
    #[tactic(auto, using(crate::proofs::WordLaws::words_cut))]
    fn next_word(&mut self) -> Option<&'a [u8]>
        ensures word { option_copied result ≡ first_word self.old }
        ensures past { self.new ≡ past_word self.old }
    {
        self.position = self.position.saturating_add(1);
        let (word, rest) = cut(self.rest?, b' ');
        self.rest = rest;
        Some(word)
    }

    // What `read` makes of the next word, which is to be there and to read.
    fn read_by<T, F: FnOnce(&'a [u8]) -> Option<T>>(&mut self, read: F) -> Result<T, Unreadable>
        requires { F.IsAlwaysCallable read }
        ensures value { MatchOption (first_word self.old)
            (result ≡ Err (unreadable self.old.position))
            (λ w. (o : Option T) × FnOnceReturnsAt F.FnOnce read w o × (result ≡ ok_or o (unreadable self.old.position))) }
        ensures past { self.new ≡ past_word self.old }
    {
        let bad = Unreadable {
            position: self.position,
        };
        self.next_word().and_then(read).ok_or(bad)
    }

    // The next word, which is to be one byte.
    pub fn letter(&mut self) -> Result<u8, Unreadable>
        ensures value { result ≡ word_by letter_of self.old }
        ensures past { self.new ≡ past_word self.old }
    {
        self.read_by(letter)
    }

    // The next word, which is to be a whole number.
    pub fn whole(&mut self) -> Result<u32, Unreadable>
        ensures value { result ≡ word_by whole_of self.old }
        ensures past { self.new ≡ past_word self.old }
    {
        self.read_by(numerals::whole)
    }

    // The next word, which is to be a decimal, in millionths.
    pub fn decimal(&mut self) -> Result<u64, Unreadable>
        ensures value { result ≡ word_by decimal_of self.old }
        ensures past { self.new ≡ past_word self.old }
    {
        self.read_by(numerals::decimal)
    }

    // That no word is left.
    #[tactic(auto, using(crate::proofs::WordLaws::words_cut))]
    pub fn end(&self) -> Result<(), Unreadable>
        ensures { result ≡ end_at self.now }
    {
        match self.rest {
            Some(_) => Err(Unreadable {
                position: self.position,
            }),
            None => Ok(()),
        }
    }
}
