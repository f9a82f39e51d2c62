// Whose line it is.
ghost use Rattle.std.specs.Prelude.{◌≡◌};
ghost use Rattle.page.specs.Narrow.{Numbered};

use crate::narrow;
use parts::Kind;
use std::fmt;

#[derive(Clone, Copy)]
pub enum Label {
    // an input or an output of the component itself
    Own(Kind, usize),
    // of an instance: how long it is busy, an input or an output, or that it has no line more
    Busy(usize),
    Of(usize, Kind, usize),
    Unnamed(usize),
    Unused(usize),
}

impl Label {
    // What a sheet is told.
    pub(crate) fn narrow(self) -> Label
        ensures narrow { Numbered result }
        ensures same { Numbered self → result ≡ self }
    {
        match self {
            Label::Own(..) => self,
            Label::Busy(i) => Label::Busy(usize::from(narrow(i))),
            Label::Of(i, k, n) => Label::Of(usize::from(narrow(i)), k, n),
            Label::Unnamed(i) => Label::Unnamed(usize::from(narrow(i))),
            Label::Unused(i) => Label::Unused(usize::from(narrow(i))),
        }
    }

    // In words, a kind in at least so many columns and a number in so many.
    pub(crate) fn say<W: fmt::Write>(self, out: &mut W, kind: usize, number: usize) -> fmt::Result {
        match self {
            Label::Own(k, n) => write!(out, "{k:<kind$} {n:<number$}"),
            Label::Busy(i) => write!(out, "instance {i:<number$} busy"),
            Label::Of(i, k, n) => write!(out, "instance {i:<number$} {k:<kind$} {n:<number$}"),
            Label::Unnamed(i) => write!(out, "instance {i:<number$} names no component"),
            Label::Unused(i) => write!(out, "instance {i:<number$} not invoked"),
        }
    }
}

impl fmt::Display for Label {
    fn fmt<W: fmt::Write>(&self, f: &mut fmt::Formatter<W>) -> fmt::Result {
        self.say(f, 0, 0)
    }
}
