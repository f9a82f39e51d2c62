// What `lower` and `list` print for document 01's example, for a design with every kind of source, for a refused file, and for files that are hard to list.
// It would catch a row, a source or a unit that is not the right one, a limit that is off by one, a count that wraps, and an expansion that never ends.
#![tactic(auto)]

use pieces::Output;
use report::STDOUT;
use std::fmt::Write;
use std::fs::File;
use std::os::fd::AsRawFd;

// A table of these and a `match` are plainer than seventeen calls with a closure each.
#[derive(Clone, Copy)]
enum Printed {
    Rows,
    Starts,
    // how many starts
    Count,
}

const PRINTOUTS: [(&str, Printed); 17] = [
    ("squaring", Printed::Rows),
    ("squaring", Printed::Starts),
    ("sources", Printed::Rows),
    ("sources", Printed::Starts),
    ("refused", Printed::Rows),
    ("refused", Printed::Starts),
    ("deep", Printed::Count),
    ("empty-levels", Printed::Starts),
    ("unused-instances", Printed::Starts),
    ("doubling-16", Printed::Starts),
    ("doubling-32", Printed::Starts),
    ("doubling-64", Printed::Starts),
    ("rows-4096", Printed::Count),
    ("rows-4097", Printed::Starts),
    ("units-4096", Printed::Starts),
    ("units-4097", Printed::Starts),
    ("hidden", Printed::Count),
];

// How many starts the last component has.
fn count(out: &mut Output, file: &[u8]) {
    let o = verdict::open_alone(file);
    let starts = match o.verdict {
        // A file with no component has no last one.
        Ok(counts) if counts.components == 0 => return,
        Ok(counts) => listing::list_judged(file, o, counts.components - 1, &mut [0; 32768]),
        Err(r) => Err(r),
    };
    let _ = match starts {
        Ok(n) => writeln!(out, "starts {n}"),
        Err(r) => writeln!(out, "{r}"),
    };
}

fn printout(rt: &HostRuntime, name: &str, what: Printed) {
    let mut file = [0; 66048];
    // What cannot be opened is printed as an empty file.
    let n = File::open(rt, name).map_or(0, |f| io::read_full(f.as_raw_fd(), &mut file));
    let file = &file[..n];
    report::print(STDOUT, |out| {
        let _ = writeln!(out, "{name}");
        match what {
            Printed::Rows => printed::print_lowered(out, file),
            Printed::Starts => printed::print_last_listed(out, file),
            Printed::Count => count(out, file),
        }
    });
}

fn main(rt: HostRuntime) {
    for (name, what) in PRINTOUTS {
        printout(&rt, name, what);
    }
}
