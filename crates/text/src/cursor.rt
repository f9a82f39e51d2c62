// A reader of one line. It goes from word to word, up to the first that is not what was expected there.
ghost use Rattle.std.specs.Prelude.{ℕ, ◌≡◌, ◌≤◌, ◌↔◌, [], Some, IsTrue, IsOk, IfOk, IfErr, IfSome, IsSome, IsSomeAnd};
ghost use Rattle.text.specs.Words.{next_end, next_word, next_number, past_number, next_byte};
ghost use Rattle.text.specs.declared.expected.Expected.TheVariants.{Own, Byte, End};

use crate::Expected;
use crate::letters::{hex, word};

#[derive(Clone, Copy)]
pub struct Cursor<'a> {
    pub line: &'a [u8],
    // where the next word is looked for
    pub at: usize,
}

impl<'a> Cursor<'a> {
    pub fn new(line: &'a [u8]) -> Cursor<'a>
        ensures { (result.line.now ≡ line.now) × (result.at ≡ 0) }
    {
        Cursor { line, at: 0 }
    }

    // The next word, and the reader behind it.
    fn word(self) -> (&'a [u8], Cursor<'a>)
        ensures word { result.0.now ≡ next_word self.entry.line.now self.entry.at }
        ensures behind { (result.1.line.now ≡ self.entry.line.now) × (result.1.at ≡ next_end self.entry.line.now self.entry.at) }
    {
        let line = self.line;
        let w = word(line, self.at);
        (&line[w.start..w.end], Cursor { line, at: w.end })
    }

    // Whether the next word is this one.
    pub fn sees(self, name: &[u8]) -> bool
        ensures { IsTrue result ↔ (next_word self.entry.line.now self.entry.at ≡ name.now) }
    {
        let (word, _) = self.word();
        word == name
    }

    // Past this word.
    pub fn literal(self, name: &[u8], what: Expected) -> Result<Cursor<'a>, Expected>
        ensures variant { IsOk result ↔ (next_word self.entry.line.now self.entry.at ≡ name.now) }
        ensures ok { IfOk result (λ c. (c.line.now ≡ self.entry.line.now) × (c.at ≡ next_end self.entry.line.now self.entry.at)) }
        ensures err { IfErr result (λ e. e ≡ what) }
    {
        let (word, next) = self.word();
        if word == name { Ok(next) } else { Err(what) }
    }

    // A number in this range, and the reader behind it.
    pub fn number(
        self,
        least: u64,
        most: u64,
        what: Expected,
    ) -> Result<(u64, Cursor<'a>), Expected>
        ensures variant { IsOk result ↔ IsSomeAnd (next_number self.entry.line.now self.entry.at) (λ n. (least ≤ n) × (n ≤ most)) }
        ensures ok { IfOk result (λ read. (next_number self.entry.line.now self.entry.at ≡ Some read.0) × (read.1.line.now ≡ self.entry.line.now) × (read.1.at ≡ next_end self.entry.line.now self.entry.at)) }
        ensures most { IfOk result (λ read. read.0 ≤ most) }
        ensures err { IfErr result (λ e. e ≡ what) }
    {
        let (word, next) = self.word();
        match words::number(word) {
            Some(n) if least <= n && n <= most => Ok((n, next)),
            _ => Err(what),
        }
    }

    // Past any number that stands here.
    pub fn margin(self) -> Cursor<'a>
        ensures { (result.line.now ≡ self.entry.line.now) × (result.at ≡ past_number self.entry.line.now self.entry.at) }
    {
        let (word, next) = self.word();
        match words::number(word) {
            Some(_) => next,
            None => self,
        }
    }

    // Past the number that follows from the place, if a number stands here.
    pub fn own(self, number: u64) -> Result<Cursor<'a>, Expected>
        ensures variant { IsOk result ↔ IfSome (next_number self.entry.line.now self.entry.at) (λ n. n ≡ number) }
        ensures ok { IfOk result (λ c. (c.line.now ≡ self.entry.line.now) × (c.at ≡ past_number self.entry.line.now self.entry.at)) }
        ensures err { IfErr result (λ e. e ≡ Own number) }
    {
        let (word, next) = self.word();
        match words::number(word) {
            Some(n) if n == number => Ok(next),
            Some(_) => Err(Expected::Own(number)),
            None => Ok(self),
        }
    }

    // A byte in two hexadecimal digits, and the reader behind it.
    pub fn byte(self) -> Result<(u8, Cursor<'a>), Expected>
        ensures variant { IsOk result ↔ IsSome (next_byte self.entry.line.now self.entry.at) }
        ensures ok { IfOk result (λ read. (next_byte self.entry.line.now self.entry.at ≡ Some read.0) × (read.1.line.now ≡ self.entry.line.now) × (read.1.at ≡ next_end self.entry.line.now self.entry.at)) }
        ensures err { IfErr result (λ e. e ≡ Byte) }
    {
        let (word, next) = self.word();
        if let [high, low] = word {
            if let (Some(high), Some(low)) = (hex(*high), hex(*low)) {
                return Ok((16 * high + low, next));
            }
        }
        Err(Expected::Byte)
    }

    // Whether the line has no word more.
    pub fn ends(self) -> bool
        ensures { IsTrue result ↔ (next_word self.entry.line.now self.entry.at ≡ []) }
    {
        let (word, _) = self.word();
        word.is_empty()
    }

    // The end of the line.
    pub fn end(self) -> Result<(), Expected>
        ensures variant { IsOk result ↔ (next_word self.entry.line.now self.entry.at ≡ []) }
        ensures err { IfErr result (λ e. e ≡ End) }
    {
        if self.ends() {
            Ok(())
        } else {
            Err(Expected::End)
        }
    }
}
