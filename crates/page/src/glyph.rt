// A cell in three letters: two for who uses it, and a mark.
ghost use Rattle.std.specs.Prelude.{◌≡◌};
ghost use Rattle.page.specs.Page.{mark_of};

use std::fmt;

#[derive(Clone, Copy, Debug, PartialEq, Eq)]
pub enum Mark {
    None,
    // what is read is not there
    Missing,
    // of the next start
    Next,
}

impl fmt::Display for Mark {
    fn fmt<W: fmt::Write>(&self, f: &mut fmt::Formatter<W>) -> fmt::Result {
        f.write_str(match self {
            Mark::None => " ",
            Mark::Missing => "!",
            Mark::Next => "'",
        })
    }
}

#[derive(Clone, Copy, Debug, PartialEq, Eq)]
pub enum Glyph {
    Free,
    // the invocation with this number
    Number(usize, Mark),
    // the component itself
    Own(Mark),
    Several,
}

impl Glyph {
    pub(crate) fn mark(self) -> Mark
        ensures { result ≡ mark_of self }
    {
        match self {
            Glyph::Number(_, mark) | Glyph::Own(mark) => mark,
            Glyph::Free | Glyph::Several => Mark::None,
        }
    }

    // The two letters without the mark.
    pub(crate) fn letters<W: fmt::Write>(self, out: &mut W) -> fmt::Result {
        match self {
            Glyph::Free => out.write_str(" ."),
            Glyph::Number(j, _) => write!(out, "{j:>2}"),
            Glyph::Own(_) => out.write_str(" o"),
            Glyph::Several => out.write_str("**"),
        }
    }
}

impl fmt::Display for Glyph {
    fn fmt<W: fmt::Write>(&self, f: &mut fmt::Formatter<W>) -> fmt::Result {
        let mark = self.mark();
        self.letters(f)?;
        write!(f, "{mark}")
    }
}
