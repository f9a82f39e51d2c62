// What is printed to any writer: rows, starts, records, pictures and reasons of the files that lie where it runs, and the lines of a
// page. Each goes to a writer with ample room, whose text is printed, to one with just the room for it, and to each with less.
// It would catch, on these files, a line that is not the one that `lower`, `list`, `show` or `explain` prints, and a writer that
// refuses and is not heard.
#![tactic(auto)]

use arrayvec::ArrayString;
use cells::Line;
use page::{Label, Page, Row, Sheet, View};
use parts::Kind;
use report::STDOUT;
use std::fmt;
use std::fmt::Write;
use std::fs::File;
use std::os::fd::AsRawFd;

// A writer that takes so many bytes and refuses the text that is more.
#[derive(Drop)]
struct Paper {
    left: usize,
    text: ArrayString<65536>,
}

impl Paper {
    fn of(left: usize) -> Paper {
        Paper {
            left,
            text: ArrayString::new(),
        }
    }
}

impl fmt::Write for Paper {
    fn write_str(&mut self, s: &str) -> fmt::Result {
        if self.left < s.len() || self.text.try_push_str(s).is_err() {
            return Err(fmt::Error);
        }
        self.left -= s.len();
        Ok(())
    }
}

// A sheet of its own, which says what it is told.
#[derive(Clone, Copy)]
struct Told;

impl Sheet for Told {
    fn open<W: fmt::Write>(&self, out: &mut W, view: View, lines: u16) -> fmt::Result {
        writeln!(out, "{view}: {} cycles, {lines} lines", view.cycles)
    }

    fn row<W: fmt::Write>(
        &self,
        out: &mut W,
        _view: View,
        above: u16,
        label: Label,
        row: Row<'_>,
    ) -> fmt::Result {
        writeln!(out, "{above} {label} {}", row.own)
    }

    fn note<W: fmt::Write>(&self, out: &mut W, above: u16, label: Label) -> fmt::Result {
        writeln!(out, "{above} {label}")
    }

    fn close<W: fmt::Write>(&self, out: &mut W) -> fmt::Result {
        out.write_str("end\n")
    }
}

// A page that comes to the last number of sixteen bits.
fn lines<W: fmt::Write>(out: &mut W) -> fmt::Result {
    let view = View {
        component: 3,
        delay: 4,
        cycles: 70000,
    };
    let row = Row {
        line: Line {
            instance: 1,
            start: 0,
            end: 1,
            delay: 4,
        },
        own: false,
        uses: &[],
        there: &[],
    };
    let mut page = Page {
        sheet: Told,
        view,
        lines: 65534,
    };
    page.open(out, 3)?;
    page.note(out, Label::Unnamed(70000))?;
    page.row(out, Label::Busy(70001), row)?;
    page.row(out, Label::Of(70002, Kind::Input, 1), row)?;
    page.row(out, Label::Own(Kind::Output, 2), row)?;
    page.note(out, Label::Unused(70003))?;
    page.note(out, Label::Unused(4))?;
    page.close(out)
}

#[derive(Clone, Copy)]
enum Printed {
    Rows,
    Starts(usize),
    LastStarts,
    Records,
    Pictures,
    Svg(usize),
    Reason,
    Lines,
}

const PRINTED: [(&str, Printed); 29] = [
    ("squaring", Printed::Rows),
    ("squaring", Printed::Starts(0)),
    ("squaring", Printed::LastStarts),
    ("squaring", Printed::Records),
    ("squaring", Printed::Pictures),
    ("squaring", Printed::Svg(1)),
    ("squaring", Printed::Svg(0)),
    ("squaring", Printed::Svg(2)),
    ("sources", Printed::Rows),
    ("sources", Printed::Starts(2)),
    ("sources", Printed::LastStarts),
    ("sources", Printed::Records),
    ("sources", Printed::Pictures),
    ("sources", Printed::Svg(2)),
    // refused by the span, by the spacing, by a reading, by a reference to no component, and for a record that is none
    ("refused", Printed::Rows),
    ("refused", Printed::Starts(0)),
    ("refused", Printed::LastStarts),
    ("refused", Printed::Reason),
    ("c", Printed::Pictures),
    ("c", Printed::Svg(1)),
    ("c", Printed::Reason),
    ("reading-early", Printed::Pictures),
    ("reading-early", Printed::Reason),
    ("component-63", Printed::Pictures),
    ("component-63", Printed::Reason),
    ("invocation-64", Printed::Records),
    ("invocation-64", Printed::Pictures),
    ("invocation-64", Printed::Reason),
    ("", Printed::Lines),
];

// Whether the writer took it all. There is no picture of an absent component, and no reason where nothing is refused.
fn print(paper: &mut Paper, file: &[u8], what: Printed) -> bool {
    let mut list = [0; 63488];
    // It stays zeros, which are no records, where the blocks do not pass.
    let size = packing::unpack(file, &mut list).unwrap_or(0);
    let records = list.get(..size).unwrap_or(&[]);
    match what {
        Printed::Rows => printed::lowered(paper, file).is_ok(),
        Printed::Starts(c) => printed::listed(paper, file, c).is_ok(),
        Printed::LastStarts => printed::last_listed(paper, file).is_ok(),
        Printed::Records => shown::list(paper, records).is_ok(),
        Printed::Pictures => picture::components(paper, records).is_ok(),
        Printed::Svg(c) => match picture::svg(paper, records, c) {
            Ok(true) => true,
            Ok(false) => writeln!(paper, "absent").is_ok(),
            Err(_) => false,
        },
        Printed::Reason => match verdict::judge_alone(file) {
            Ok(_) => true,
            Err(r) => reasons::reason(paper, file.len(), &list, r).is_ok(),
        },
        Printed::Lines => lines(paper).is_ok(),
    }
}

// Whether every writer with too little room is heard, and got what comes first.
fn is_heard(whole: &[u8], file: &[u8], what: Printed) -> bool {
    for room in 0..whole.len() {
        let mut paper = Paper::of(room);
        let took = print(&mut paper, file, what);
        if took || !whole.starts_with(paper.text.as_str().as_bytes()) {
            return false;
        }
    }
    true
}

fn show(rt: &HostRuntime, name: &str, what: Printed) {
    let mut file = [0; 66048];
    // What cannot be opened is printed as an empty file.
    let n = File::open(rt, name).map_or(0, |f| io::read_full(f.as_raw_fd(), &mut file));
    let file = &file[..n];
    let mut ample = Paper::of(65536);
    let whole = print(&mut ample, file, what);
    let text = ample.text.as_str();
    let exact = print(&mut Paper::of(text.len()), file, what);
    let heard = is_heard(text.as_bytes(), file, what);
    report::print(STDOUT, |out| {
        out.text(text);
        if (whole, exact, heard) != (true, true, true) {
            let _ = writeln!(out, "taken {whole}, exactly {exact}, heard {heard}");
        }
    });
}

fn main(rt: HostRuntime) {
    for (name, what) in PRINTED {
        show(&rt, name, what);
    }
}
