// The verdict on the file on standard input: `accepted C R`, with the component and record counts, or `refused N at P`.
#![tactic(auto)]

use report::STDOUT;

fn main() {
    report::on_input(|file| report::verdict(STDOUT, verdict::judge_alone(file)));
}
