// Plans towns: prints for each a shortest round, its length beside that of all streets, and a sheet that agrees with it.
#![tactic(auto)]

ghost use Rattle.answers.specs.Answers.{Plans};

use answers::{NoAnswer, plan_answer};
use files::{Answer, Program, Reply, run};
use std::alloc::Global;
use std::env;
use std::process::ExitCode;

const PROGRAM: Program = Program {
    call: "plan [FILE ..]",
    about: "Plans a round of a snow plough for the town of each FILE, or of standard input if there
is none or it is -. A town's text has these lines:

    crossings 4                 # crossings are numbered from 0
    depot 0
    street 0 1 2                # two ends and a length in metres

For each town this prints a shortest round over all streets from the depot and home,
its length beside that of all streets together, and parts of the town that show that
no round is shorter. What is printed behind a town's text is a text for check.
",
    options: &[],
    done: "planned",
};

struct Planner;

impl Answer for Planner {
    type Fault = NoAnswer;

    ghost answers = { λ _ _ text reply. Plans text reply };

    fn answer(&self, heap: Global, _options: &[&str], text: &str) -> Result<Reply, NoAnswer> {
        plan_answer(heap, text)
    }
}

fn main(rt: HostRuntime) -> ExitCode {
    run(&rt, env::args(&rt), &PROGRAM, &Planner)
}
