// The control rows of every built component of the file on standard input, as document 01 prints them; or the refusal.
#![tactic(auto)]

use report::STDOUT;

fn main() {
    report::on_input(|file| report::print(STDOUT, |out| printed::print_lowered(out, file)));
}
