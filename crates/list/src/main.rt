// When each unit of a component of the file on standard input starts: of the component whose number is the argument, or of the last one.
#![tactic(auto)]

use report::{STDERR, STDOUT};
use std::env::Env;
use words::arguments;

// Arguments that are not a number alone.
#[derive(Clone, Copy)]
struct Misuse;

// The component that is asked for, if one is.
fn asked(rt: &impl Env) -> Result<Option<u64>, Misuse> {
    if !arguments::given(rt, 1) {
        return Ok(None);
    }
    if arguments::given(rt, 2) {
        return Err(Misuse);
    }
    // A word that is too long for the space comes back empty, which is no number.
    let mut space = io::buffer();
    let c = words::number(arguments::argument(rt, 1, &mut space)).ok_or(Misuse)?;
    Ok(Some(c))
}

fn main(rt: HostRuntime) {
    match asked(&rt) {
        Ok(c) => report::on_input(|file| {
            report::print(STDOUT, |out| match c {
                Some(c) => printed::print_listed(out, file, c as usize),
                None => printed::print_last_listed(out, file),
            })
        }),
        Err(Misuse) => {
            io::write_all(STDERR, b"usage: list [COMPONENT]\n");
        }
    }
}
