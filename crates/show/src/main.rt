// The file on standard input as text: its records, then the timetable of each built component as a picture; or `refused N at P`, where its
// blocks do not pass. With `--svg`, the picture of one component as SVG instead: of the last, or of the one whose number follows, which is
// refusal 14 where it is absent.
#![tactic(auto)]

use answers::{Fault, Refusal};
use pieces::Output;
use report::{STDERR, STDOUT};
use std::env::Env;
use std::fmt::Write;
use words::arguments;

#[derive(Clone, Copy)]
enum Asked {
    Text,
    // of this component, or of the last
    Svg(Option<u64>),
}

// Arguments that ask for neither.
#[derive(Clone, Copy)]
struct Misuse;

// Whether argument 1 asks for SVG.
fn svg_asked(rt: &impl Env) -> bool {
    let mut space = io::buffer();
    let word = arguments::argument(rt, 1, &mut space);
    (word == b"--svg".as_slice()) | (word == b"svg".as_slice())
}

fn what_is_asked(rt: &impl Env) -> Result<Asked, Misuse> {
    if !arguments::given(rt, 1) {
        return Ok(Asked::Text);
    }
    if arguments::given(rt, 3) | !svg_asked(rt) {
        return Err(Misuse);
    }
    if !arguments::given(rt, 2) {
        return Ok(Asked::Svg(None));
    }
    let mut space = io::buffer();
    let c = words::number(arguments::argument(rt, 2, &mut space)).ok_or(Misuse)?;
    Ok(Asked::Svg(Some(c)))
}

fn text(out: &mut Output, list: &[u8]) {
    shown::print_list(out, list);
    picture::print_components(out, list);
}

fn svg(out: &mut Output, list: &[u8], c: usize) {
    if picture::print_svg(out, list, c) {
        return;
    }
    let absent = Refusal::at(Fault::Absent, c);
    // An output takes every text, so there is nothing to answer for.
    let _ = writeln!(out, "{absent}");
}

// The list as it is asked for.
fn answer(list: &[u8], asked: Result<Asked, Misuse>) {
    match asked {
        Ok(Asked::Text) => report::print(STDOUT, |out| text(out, list)),
        Ok(Asked::Svg(c)) => {
            let c = c.map_or_else(|| parts::last(list), |c| c as usize);
            report::print(STDOUT, |out| svg(out, list, c));
        }
        Err(Misuse) => {
            io::write_all(
                STDERR,
                b"usage: show [--svg [COMPONENT]], a design file on standard input\n",
            );
        }
    }
}

// A file whose blocks do not pass is refused before a word about the arguments.
fn show(file: &[u8], asked: Result<Asked, Misuse>) {
    let mut list = io::large_buffer();
    match packing::unpack(file, &mut list) {
        Ok(n) => answer(&list[..n], asked),
        Err(r) => report::refusal(STDOUT, r),
    }
}

fn main(rt: HostRuntime) {
    let asked = what_is_asked(&rt);
    report::on_input(|file| show(file, asked));
}
