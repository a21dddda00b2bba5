// Plans the examples: each town is read, written anew and planned, and what the plan's text says is read back with the town's and checked.
#![tactic(auto)]

ghost use Rattle.std.specs.Prelude.{⊤};

use answers::{NoAnswer, check_answer, plan_answer};
use files::{Answer, Program, Reply, run};
use std::alloc::Global;
use std::env;
use std::process::ExitCode;
use text::{TownText, town_text};

const PROGRAM: Program = Program {
    call: "read_back [FILE ..]",
    about: "Plans the town of each FILE, and checks what is read back.\n",
    options: &[],
    done: "shortest",
};

struct ReadBack;

impl Answer for ReadBack {
    ghost use Rattle.files.specs.declared.answer.Reply.{Reply};

    type Fault = NoAnswer;

    ghost answers = { λ _ _ _ _. ⊤ };

    fn answer(&self, heap: Global, _options: &[&str], text: &str) -> Result<Reply, NoAnswer> {
        let town = town_text(heap, &TownText::read(heap, text)?.town()?)?;
        let plan = plan_answer(heap, town.as_str())?.text;
        let whole = format!(in heap; "{town}{plan}")?;
        check_answer(heap, whole.as_str())
    }
}

fn main(rt: HostRuntime) -> ExitCode {
    run(&rt, env::args(&rt), &PROGRAM, &ReadBack)
}
