// A file on standard input; its list of records on standard output. A refusal goes to standard error, and nothing to standard output.
#![tactic(auto)]

use report::{STDERR, STDOUT};

fn answer(file: &[u8]) {
    let mut list = io::large_buffer();
    match packing::unpack(file, &mut list) {
        Ok(n) => {
            io::write_all(STDOUT, &list[..n]);
        }
        Err(r) => report::refusal(STDERR, r),
    }
}

fn main() {
    report::on_input(answer);
}
