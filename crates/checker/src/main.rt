// Checks rounds and sheets: prints the checker's word on each, and a worksheet above it where one is asked for.
#![tactic(auto)]

ghost use Rattle.checker.specs.Checked.{Answers};

use answers::{NoAnswer, check_answer, worksheet_answer};
use files::{Answer, Program, Reply, run};
use std::alloc::Global;
use std::env;
use std::process::ExitCode;

const PROGRAM: Program = Program {
    call: "check [--worksheet] [FILE ..]",
    about: "Checks the round and the sheet of each FILE, or of standard input if there is none or it
is -. A text has these lines, in any order but for that of the streets and of the parts:

    crossings 4                 # crossings are numbered from 0
    depot 0
    street 0 1 2                # two ends and a length in metres; streets are numbered from 0
    street 0 2 3
    round 0 0b 1 1b             # streets, with b if driven from the second end to the first
    part 4 at 1                 # a weight, and the crossings of the part
    part 6 at 2

For each text this prints whether the round is a shortest one, as the sheet shows, or
what is wrong with it.

    --worksheet                 prints the sums that show it, to be ticked by hand
",
    options: &["--worksheet"],
    done: "shortest",
};

struct Checker;

impl Answer for Checker {
    type Fault = NoAnswer;

    ghost answers = { λ _ options text reply. Answers options text reply };

    fn answer(&self, heap: Global, options: &[&str], text: &str) -> Result<Reply, NoAnswer> {
        if options.contains(&"--worksheet") {
            worksheet_answer(heap, text)
        } else {
            check_answer(heap, text)
        }
    }
}

fn main(rt: HostRuntime) -> ExitCode {
    run(&rt, env::args(&rt), &PROGRAM, &Checker)
}
