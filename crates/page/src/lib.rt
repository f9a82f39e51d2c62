// One line of a picture after the other, on a page: as text in comment lines, or as SVG. (docs/TEXT.md)
#![tactic(auto)]

ghost use Rattle.std.specs.Prelude.{◌≡◌, OnOk, OnErr, min};
ghost use Rattle.page.specs.Page.{one_line_more};
ghost use Rattle.page.specs.Narrow.{Narrow, Numbered};

mod glyph;
mod label;
mod svg;
mod text;

use cells::{Cell, Line};
use glyph::{Glyph, Mark};
pub use label::Label;
use parts::{Interval, Use};
use pieces::Output;
use std::fmt;
pub use svg::Svg;
pub use text::Text;

// The nearest number of sixteen bits.
pub(crate) fn narrow(n: usize) -> u16
    ensures { result ≡ min n 65535 }
{
    u16::try_from(n).unwrap_or(65535)
}

// What a picture is of: the component with this number, its delay, and how many cycles are seen.
#[derive(Clone, Copy)]
pub struct View {
    pub component: usize,
    pub delay: usize,
    pub cycles: usize,
}

impl View {
    // What a sheet is told.
    fn narrow(self) -> View
        ensures narrow { Narrow result }
        ensures same { Narrow self → result ≡ self }
    {
        View {
            component: self.component,
            delay: usize::from(narrow(self.delay)),
            cycles: usize::from(narrow(self.cycles)),
        }
    }
}

// The title.
impl fmt::Display for View {
    fn fmt<W: fmt::Write>(&self, f: &mut fmt::Formatter<W>) -> fmt::Result {
        let component = self.component;
        let delay = self.delay;
        write!(
            f,
            "component {component} delay {delay}, the next start (') at cycle {delay}"
        )
    }
}

// What a row shows: a line of these invocations, each in its place, and when each of them finds what it reads; always, where that is
// not said. Two lists and not one: the uses are the component's, and what they read is another for each line.
#[derive(Clone, Copy)]
pub struct Row<'a> {
    pub line: Line,
    // a port of the component itself
    pub own: bool,
    pub uses: &'a [Option<Use>],
    pub there: &'a [Interval],
}

impl Row<'_> {
    fn used(self, j: usize, mark: Mark) -> Glyph {
        if self.own {
            Glyph::Own(mark)
        } else {
            Glyph::Number(j, mark)
        }
    }

    // Whether invocation j reads in cycle t what is not there.
    fn misses(self, j: usize, t: usize) -> bool {
        let there = self.there;
        matches!(there.get(j), Some(interval) if !interval.holds(t))
    }

    fn glyph(self, t: usize) -> Glyph {
        let uses = self.uses;
        match self.line.cell_at(uses, t) {
            Cell::Free => Glyph::Free,
            Cell::First(j) if self.misses(j, t) => self.used(j, Mark::Missing),
            Cell::First(j) => self.used(j, Mark::None),
            Cell::Next(j) => self.used(j, Mark::Next),
            Cell::Several => Glyph::Several,
        }
    }
}

// A way to draw the lines of a picture, one after the other. It is told of at most 65,535 lines, cycles and instances; a method of an
// impl that has clauses of its own says so again.
pub trait Sheet: Drop {
    // What stands above the lines, of which there will be so many.
    fn open<W: fmt::Write>(&self, out: &mut W, view: View, lines: u16) -> fmt::Result
        requires { Narrow view };

    // A line with cells, below so many others.
    fn row<W: fmt::Write>(
        &self,
        out: &mut W,
        view: View,
        above: u16,
        label: Label,
        row: Row<'_>,
    ) -> fmt::Result
        requires { Narrow view × Numbered label };

    // A line without cells.
    fn note<W: fmt::Write>(&self, out: &mut W, above: u16, label: Label) -> fmt::Result
        requires { Numbered label };

    // What stands below the lines.
    fn close<W: fmt::Write>(&self, out: &mut W) -> fmt::Result;
}

// The same with numbers of any size, which asks nothing of those who draw by it. Its methods have names of their own, since a surface is
// a sheet too.
pub trait Surface: Drop {
    fn draw_open<W: fmt::Write>(&self, out: &mut W, view: View, lines: usize) -> fmt::Result;

    fn draw_row<W: fmt::Write>(
        &self,
        out: &mut W,
        view: View,
        above: usize,
        label: Label,
        row: Row<'_>,
    ) -> fmt::Result;

    fn draw_note<W: fmt::Write>(&self, out: &mut W, above: usize, label: Label) -> fmt::Result;

    fn draw_close<W: fmt::Write>(&self, out: &mut W) -> fmt::Result;
}

// What takes numbers of any size takes those of sixteen bits.
impl<S: Surface> Sheet for S {
    fn open<W: fmt::Write>(&self, out: &mut W, view: View, lines: u16) -> fmt::Result {
        self.draw_open(out, view, usize::from(lines))
    }

    fn row<W: fmt::Write>(
        &self,
        out: &mut W,
        view: View,
        above: u16,
        label: Label,
        row: Row<'_>,
    ) -> fmt::Result {
        self.draw_row(out, view, usize::from(above), label, row)
    }

    fn note<W: fmt::Write>(&self, out: &mut W, above: u16, label: Label) -> fmt::Result {
        self.draw_note(out, usize::from(above), label)
    }

    fn close<W: fmt::Write>(&self, out: &mut W) -> fmt::Result {
        self.draw_close(out)
    }
}

// Nothing is written, so that the lines are only counted.
#[derive(Clone, Copy)]
pub struct Count;

impl Surface for Count {
    fn draw_open<W: fmt::Write>(&self, _out: &mut W, _view: View, _lines: usize) -> fmt::Result {
        Ok(())
    }

    fn draw_row<W: fmt::Write>(
        &self,
        _out: &mut W,
        _view: View,
        _above: usize,
        _label: Label,
        _row: Row<'_>,
    ) -> fmt::Result {
        Ok(())
    }

    fn draw_note<W: fmt::Write>(&self, _out: &mut W, _above: usize, _label: Label) -> fmt::Result {
        Ok(())
    }

    fn draw_close<W: fmt::Write>(&self, _out: &mut W) -> fmt::Result {
        Ok(())
    }
}

// A sheet, what is drawn on it, and how many lines stand there.
#[derive(Clone, Copy, Drop)]
pub struct Page<S> {
    pub sheet: S,
    pub view: View,
    pub lines: usize,
}

impl<S: Drop> Page<S> {
    fn next_line(&mut self)
        ensures lines { self.new.lines ≡ one_line_more self.old.lines }
        ensures kept { (self.new.sheet ≡ self.old.sheet) × (self.new.view ≡ self.old.view) }
    {
        if self.lines < 65535 {
            self.lines += 1;
        }
    }
}

// Any writer takes the lines, and one that it refuses does not count. A sheet is told the nearest numbers that sixteen bits hold.
impl<S: Sheet> Page<S> {
    pub fn open<W: fmt::Write>(&self, out: &mut W, lines: u16) -> fmt::Result {
        self.sheet.open(out, self.view.narrow(), lines)
    }

    pub fn row<W: fmt::Write>(&mut self, out: &mut W, label: Label, row: Row<'_>) -> fmt::Result
        ensures ok { OnOk result (self.new.lines ≡ one_line_more self.old.lines) }
        ensures err { OnErr result (self.new.lines ≡ self.old.lines) }
        ensures kept { (self.new.sheet ≡ self.old.sheet) × (self.new.view ≡ self.old.view) }
    {
        let above = narrow(self.lines);
        let view = self.view.narrow();
        self.sheet.row(out, view, above, label.narrow(), row)?;
        self.next_line();
        Ok(())
    }

    pub fn note<W: fmt::Write>(&mut self, out: &mut W, label: Label) -> fmt::Result
        ensures ok { OnOk result (self.new.lines ≡ one_line_more self.old.lines) }
        ensures err { OnErr result (self.new.lines ≡ self.old.lines) }
        ensures kept { (self.new.sheet ≡ self.old.sheet) × (self.new.view ≡ self.old.view) }
    {
        let above = narrow(self.lines);
        self.sheet.note(out, above, label.narrow())?;
        self.next_line();
        Ok(())
    }

    pub fn close<W: fmt::Write>(&self, out: &mut W) -> fmt::Result {
        self.sheet.close(out)
    }
}

// The same on an output: it takes every text, so that drawing on it cannot fail, and numbers of any size.
impl<S: Surface> Page<S> {
    pub fn print_open(&self, out: &mut Output, lines: usize) {
        let _ = self.sheet.draw_open(out, self.view, lines);
    }

    pub fn print_row(&mut self, out: &mut Output, label: Label, row: Row<'_>)
        ensures lines { self.new.lines ≡ one_line_more self.old.lines }
        ensures kept { (self.new.sheet ≡ self.old.sheet) × (self.new.view ≡ self.old.view) }
    {
        let _ = self.sheet.draw_row(out, self.view, self.lines, label, row);
        self.next_line();
    }

    pub fn print_note(&mut self, out: &mut Output, label: Label)
        ensures lines { self.new.lines ≡ one_line_more self.old.lines }
        ensures kept { (self.new.sheet ≡ self.old.sheet) × (self.new.view ≡ self.old.view) }
    {
        let _ = self.sheet.draw_note(out, self.lines, label);
        self.next_line();
    }

    pub fn print_close(&self, out: &mut Output) {
        let _ = self.sheet.draw_close(out);
    }
}
