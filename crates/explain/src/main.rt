// Why the file on standard input is refused, in a sentence; nothing for an accepted one.
#![tactic(auto)]

use report::STDOUT;

fn answer(file: &[u8]) {
    if let Err(r) = verdict::judge_alone(file) {
        // It stays zeros, which are no records, where the blocks do not pass.
        let mut list = [0; 63488];
        let _ = packing::unpack(file, &mut list);
        report::print(
            STDOUT,
            |out| reasons::print_reason(out, file.len(), &list, r),
        );
    }
}

fn main() {
    report::on_input(answer);
}
