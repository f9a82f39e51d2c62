// A list of records on standard input; its file on standard output. A refusal goes to standard error, and nothing to standard output.
#![tactic(auto)]

use report::{STDERR, STDOUT};

fn answer(list: &[u8]) {
    let mut file = io::large_buffer();
    match packing::pack(list, &mut file) {
        Ok(n) => {
            io::write_all(STDOUT, &file[..n]);
        }
        Err(r) => report::refusal(STDERR, r),
    }
}

fn main() {
    report::on_input(answer);
}
