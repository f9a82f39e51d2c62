// A page as SVG: a box for each cycle in which a line is used, as far as the cycles go.
ghost use Rattle.std.specs.Prelude.{◌≤◌};

use crate::glyph::{Glyph, Mark};
use crate::{Label, Row, Surface, View};
use std::fmt;

// No page goes on behind this cycle.
const MOST_CYCLES: usize = 4096;

// The left edge of a cycle; 0 for one that no page has. Its bound is what the sums of `cell`, `tick` and `open` need; so is that of
// `top_of`.
fn left_of(t: usize) -> usize
    ensures { result ≤ 1704080 }
{
    if t < 65536 { 170 + 26 * t } else { 0 }
}

// The upper edge of a line, below the title and the cycles' numbers; 0 for one that no page has.
fn top_of(line: usize) -> usize
    ensures { result ≤ 1310744 }
{
    if line < 65536 { 44 + 20 * line } else { 0 }
}

// Blue for the first start, grey for the next, red where two meet or what is read is not there.
fn colour(glyph: Glyph) -> &'static str {
    match (glyph, glyph.mark()) {
        (Glyph::Several, _) | (_, Mark::Missing) => "#ff8f8f",
        (_, Mark::Next) => "#e2e2e2",
        _ => "#a8d0ff",
    }
}

fn cell<W: fmt::Write>(out: &mut W, glyph: Glyph, t: usize, line: usize) -> fmt::Result {
    let x = left_of(t);
    let y = top_of(line);
    let fill = colour(glyph);
    write!(
        out,
        "<rect x=\"{x}\" y=\"{y}\" width=\"26\" height=\"16\" stroke=\"#ffffff\" fill=\"{fill}\"/>"
    )?;
    let x = x + 3;
    let y = y + 12;
    writeln!(out, "<text x=\"{x}\" y=\"{y}\">{glyph}</text>")
}

// The number of a cycle, and a line down from it.
fn tick<W: fmt::Write>(out: &mut W, t: usize, bottom: usize) -> fmt::Result {
    let left = left_of(t);
    let x = left + 3;
    writeln!(
        out,
        "<text x=\"{x}\" y=\"38\">{t}</text><path stroke=\"#f0f0f0\" d=\"M{left} 42V{bottom}\"/>"
    )
}

#[derive(Clone, Copy)]
pub struct Svg;

impl Surface for Svg {
    fn draw_open<W: fmt::Write>(&self, out: &mut W, view: View, lines: usize) -> fmt::Result {
        let bottom = top_of(lines);
        let width = (left_of(view.cycles) + 10).max(420);
        let height = bottom + 10;
        out.write_str(
            "<svg xmlns=\"http://www.w3.org/2000/svg\" font-family=\"monospace\" font-size=\"12\" xml:space=\"preserve\"",
        )?;
        writeln!(out, " width=\"{width}\" height=\"{height}\">")?;
        out.write_str("<rect width=\"100%\" height=\"100%\" fill=\"#ffffff\"/>\n")?;
        writeln!(out, "<text x=\"6\" y=\"18\">{view}</text>")?;
        out.write_str("<text x=\"6\" y=\"38\">cycle</text>\n")?;
        for t in 0..view.cycles.min(MOST_CYCLES) {
            tick(out, t, bottom)?;
        }
        Ok(())
    }

    fn draw_row<W: fmt::Write>(
        &self,
        out: &mut W,
        view: View,
        above: usize,
        label: Label,
        row: Row<'_>,
    ) -> fmt::Result {
        self.draw_note(out, above, label)?;
        for t in 0..view.cycles.min(MOST_CYCLES) {
            let glyph = row.glyph(t);
            if glyph != Glyph::Free {
                cell(out, glyph, t, above)?;
            }
        }
        Ok(())
    }

    fn draw_note<W: fmt::Write>(&self, out: &mut W, above: usize, label: Label) -> fmt::Result {
        let y = top_of(above) + 12;
        writeln!(out, "<text x=\"6\" y=\"{y}\">{label}</text>")
    }

    fn draw_close<W: fmt::Write>(&self, out: &mut W) -> fmt::Result {
        out.write_str("</svg>\n")
    }
}
