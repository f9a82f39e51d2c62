// A page in text: three letters for each of at most 32 cycles.
use crate::glyph::{Glyph, Mark};
use crate::{Label, Row, Surface, View};
use std::{array, fmt};

// The letters of these cycles, without a blank at their end.
fn columns<W: fmt::Write>(out: &mut W, glyphs: &[Glyph]) -> fmt::Result {
    if let Some((last, others)) = glyphs.split_last() {
        for glyph in others {
            write!(out, "{glyph}")?;
        }
        if last.mark() == Mark::None {
            last.letters(out)?;
        } else {
            write!(out, "{last}")?;
        }
    }
    out.write_str("\n")
}

// The first cycles, of which there are at most 32.
fn seen(glyphs: &[Glyph; 32], cycles: usize) -> &[Glyph] {
    &glyphs[..cycles.min(32)]
}

// A kind stands in six columns and a number in two.
fn name<W: fmt::Write>(out: &mut W, label: Label) -> fmt::Result {
    out.write_str("#  ")?;
    label.say(out, 6, 2)
}

// What is left up to column 26, where the cells begin.
fn margin(label: Label) -> &'static str {
    match label {
        Label::Own(_, _) => "              ",
        Label::Busy(_) => "       ",
        Label::Of(_, _, _) => "  ",
        Label::Unnamed(_) | Label::Unused(_) => "",
    }
}

#[derive(Clone, Copy)]
pub struct Text;

impl Surface for Text {
    fn draw_open<W: fmt::Write>(&self, out: &mut W, view: View, _lines: usize) -> fmt::Result {
        let cycles = view.cycles;
        write!(out, "#\n#  {view}")?;
        if cycles > 32 {
            write!(out, "; cut at cycle 32 of {cycles}")?;
        }
        write!(out, "\n{:<26}", "#  cycle")?;
        let numbers = array::from_fn(|t| Glyph::Number(t, Mark::None));
        columns(out, seen(&numbers, cycles))
    }

    fn draw_row<W: fmt::Write>(
        &self,
        out: &mut W,
        view: View,
        _above: usize,
        label: Label,
        row: Row<'_>,
    ) -> fmt::Result {
        name(out, label)?;
        out.write_str(margin(label))?;
        let mut glyphs = [Glyph::Free; 32];
        for (t, glyph) in (0..view.cycles).zip(glyphs.iter_mut()) {
            *glyph = row.glyph(t);
        }
        columns(out, seen(&glyphs, view.cycles))
    }

    fn draw_note<W: fmt::Write>(&self, out: &mut W, _above: usize, label: Label) -> fmt::Result {
        name(out, label)?;
        out.write_str("\n")
    }

    fn draw_close<W: fmt::Write>(&self, _out: &mut W) -> fmt::Result {
        Ok(())
    }
}
