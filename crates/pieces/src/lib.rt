// Text on its way out, gathered and written many bytes at once.
#![tactic(auto)]

ghost use Rattle.std.specs.Prelude.{[], ◌≡◌, ◌+◌, ◌/◌, ◌%◌, ◌≤◌, ◌<◌, ◌∷◌, ◌++◌, length, decimal, IsOk};
ghost use Rattle.records.specs.Shown.{source_text};
ghost use Rattle.pieces.specs.Gathered.{Holds, behind, begun, glyph};

use arrayvec::ArrayString;
use itoa::Buffer;
use records::Source;
use std::fmt;

// Text for one stream, of which up to 4,096 bytes wait to be written.
// It is a writer of `write!` and `Display`; for what is printed by the thousand, a row or a record, `text` and `number` do the same in a
// third of the instructions or less. They are written out where they are called, and `line` shows the compiler that there is room.
#[derive(Drop)]
pub struct Output {
    fd: i32,
    held: ArrayString<4096>,
}

impl Output {
    pub fn to(fd: i32) -> Output
        ensures { Holds fd [] result }
    {
        Output {
            fd,
            held: ArrayString::new(),
        }
    }

    // It stands alone, so that what is written out around it is short.
    #[inline(never)]
    fn send(&self) {
        io::write_all(self.fd, self.held.as_str().as_bytes());
    }

    fn flush(&mut self)
        ensures { Holds self.old.fd [] self.new }
    {
        self.send();
        self.held.clear();
    }

    // A line of up to 160 bytes begins: it finds room behind the others, which are written first where there is none.
    #[inline(always)]
    pub fn line(&mut self)
        ensures begins { Holds self.old.fd (begun self.old.held.bytes) self.new }
        ensures room { length self.new.held.bytes ≤ 3936 }
    {
        if 3936 < self.held.len() {
            self.flush();
        }
    }

    // A text that finds no room behind the others: they are written first, and so is it where it is longer than all the room.
    // It stands alone so that a text that finds room, as almost each does, is a few instructions.
    #[inline(never)]
    fn spill(&mut self, s: &str)
        ensures { Holds self.old.fd (behind [] s.now) self.new }
    {
        self.flush();
        if self.held.try_push_str(s).is_err() {
            io::write_all(self.fd, s.as_bytes());
        }
    }

    // A text behind the others.
    #[inline(always)]
    pub fn text(&mut self, s: &str)
        ensures { Holds self.old.fd (behind self.old.held.bytes s.now) self.new }
    {
        if self.held.try_push_str(s).is_err() {
            self.spill(s);
        }
    }

    // A letter that finds no room behind the others.
    #[inline(never)]
    fn spill_letter(&mut self, c: char)
        requires { c < 128 }
        ensures { Holds self.old.fd (c ∷ []) self.new }
    {
        self.flush();
        let _ = self.held.try_push(c);
    }

    #[inline(always)]
    fn letter(&mut self, c: char)
        requires { c < 128 }
        ensures { Holds self.old.fd (behind self.old.held.bytes (c ∷ [])) self.new }
    {
        if self.held.try_push(c).is_err() {
            self.spill_letter(c);
        }
    }

    // The last decimal digit of a number.
    #[inline(always)]
    fn digit(&mut self, n: u16)
        ensures { Holds self.old.fd (behind self.old.held.bytes ((48 + n % 10) ∷ [])) self.new }
    {
        self.letter((b'0' + (n % 10) as u8) as char);
    }

    // A number of at most five digits behind the others, in decimal.
    #[inline(always)]
    pub fn short_number(&mut self, n: u16)
        ensures { length self.old.held.bytes + 5 ≤ 4096 → Holds self.old.fd (self.old.held.bytes ++ decimal n) self.new }
    {
        if 9 < n {
            if 99 < n {
                if 999 < n {
                    if 9999 < n {
                        self.digit(n / 10000);
                    }
                    self.digit(n / 1000);
                }
                self.digit(n / 100);
            }
            self.digit(n / 10);
        }
        self.digit(n);
    }

    #[inline(never)]
    fn long_number(&mut self, n: u64)
        ensures { Holds self.old.fd (behind self.old.held.bytes (decimal n)) self.new }
    {
        let mut buffer = Buffer::new();
        self.text(buffer.format(n));
    }

    // A number behind the others, in decimal. Most are short.
    #[inline(always)]
    pub fn number(&mut self, n: u64)
        ensures { length self.old.held.bytes + 20 ≤ 4096 → Holds self.old.fd (self.old.held.bytes ++ decimal n) self.new }
    {
        match u16::try_from(n) {
            Ok(short) => self.short_number(short),
            Err(_) => self.long_number(n),
        }
    }

    // A hexadecimal digit.
    #[inline(always)]
    fn glyph(&mut self, n: u8)
        requires { n < 16 }
        ensures { Holds self.old.fd (behind self.old.held.bytes (glyph n ∷ [])) self.new }
    {
        self.letter(if n < 10 { b'0' + n } else { b'a' + (n - 10) } as char);
    }

    // A byte behind the others, in two hexadecimal digits.
    #[inline(always)]
    pub fn hex(&mut self, b: u8)
        ensures { length self.old.held.bytes + 2 ≤ 4096 → Holds self.old.fd (self.old.held.bytes ++ (glyph (b / 16) ∷ glyph (b % 16) ∷ [])) self.new }
    {
        self.glyph(b / 16);
        self.glyph(b % 16);
    }

    // What `Display` writes of a source.
    #[inline(always)]
    pub fn source(&mut self, s: Source)
        ensures { length self.old.held.bytes + 46 ≤ 4096 → Holds self.old.fd (self.old.held.bytes ++ source_text s) self.new }
    {
        match s {
            Source::Own(input) => {
                self.text("own ");
                self.short_number(input);
            }
            Source::Output(invocation, output) => {
                self.text("inv ");
                self.short_number(invocation);
                self.text(" ");
                self.short_number(output);
            }
            Source::Constant(value) => {
                self.text("const ");
                self.number(value);
            }
        }
    }

    // What still waits is written.
    pub fn end(mut self) {
        self.flush();
    }
}

// Output that cannot be written is no error, so each text is taken.
impl fmt::Write for Output {
    ghost write_str_gives = { λ s text t. Holds s.fd (behind s.held.bytes text) t };

    fn write_str(&mut self, s: &str) -> fmt::Result
        ensures ok { IsOk result → Holds self.old.fd (behind self.old.held.bytes s.now) self.new }
        ensures taken { IsOk result }
    {
        self.text(s);
        Ok(())
    }
}
