// How a program goes on from its arguments to its end.
ghost use Rattle.std.specs.Prelude.{◌≡◌, ◌≤◌, map, drop, string_bytes, IfOk, IsOkAnd, IsTrue};
ghost use Rattle.std.specs.Vec.Iter.{into_iter_items};
ghost use Rattle.std.specs.Process.{exit_status};
ghost use Rattle.files.specs.Answered.{AllAnswered};

use crate::answerer::Answerer;
use crate::arguments::Arguments;
use crate::one_line::OneLine;
use crate::program::Help;
use crate::{Answer, Program, Texts};
use std::alloc::{AllocError, Global};
use std::env::Args;
use std::io;
use std::process::ExitCode;
use thiserror::Error;

// Why a program stops.
#[derive(Debug, Drop, Error)]
enum Stop {
    #[error("cannot read the arguments: {0}")]
    Arguments(io::Error),
    #[error("cannot write the answer: {0}")]
    Unwritten(#[from] io::Error),
    #[error("out of memory")]
    Memory(#[from(alloc)] AllocError),
}

// Does what the arguments ask for, and says whether there is an answer to each.
fn answer_named<R: Texts + Print + Eprint + AllocGlobal, A: Answer>(
    rt: &R,
    args: &[String],
    program: &Program,
    answer: &A,
) -> Result<bool, Stop>
    ensures { IfOk result (λ b. IsTrue b → AllAnswered (R.holds rt.now) (A.answers answer.now) (map (λ o. o.now) program.now.options.now) (map string_bytes args.now)) }
{
    let arguments = Arguments::read(rt.alloc(), args)?;
    match arguments.unknown(program.options) {
        None => {
            let answerer = Answerer {
                rt,
                answer,
                options: arguments.options.as_slice(),
            };
            Ok(answerer.answer_all(program, arguments.names.as_slice())?)
        }
        Some("--help") => {
            rt.print(Help(program))?;
            Ok(true)
        }
        Some(option) => {
            let call = program.call;
            let _ = eprintln!(rt; "unknown option {}: expected {call}", OneLine(option));
            Ok(false)
        }
    }
}

// The arguments without the program's own name.
fn after_program(heap: Global, args: io::Result<Args>) -> Result<Vec<String>, Stop>
    ensures { IfOk result (λ v. IsOkAnd args (λ a. v.items ≡ drop 1 (into_iter_items a))) }
{
    match args {
        Ok(args) => Ok(args.skip(1).collect(heap)?),
        Err(e) => Err(Stop::Arguments(e)),
    }
}

// The same from the arguments as the system gives them.
fn answer_arguments<R: Texts + Print + Eprint + AllocGlobal, A: Answer>(
    rt: &R,
    args: io::Result<Args>,
    program: &Program,
    answer: &A,
) -> Result<bool, Stop>
    ensures { IfOk result (λ b. IsTrue b → IsOkAnd args (λ a. AllAnswered (R.holds rt.now) (A.answers answer.now) (map (λ o. o.now) program.now.options.now) (map string_bytes (drop 1 (into_iter_items a))))) }
{
    let args = after_program(rt.alloc(), args)?;
    answer_named(rt, args.as_slice(), program, answer)
}

// Answers each text that the arguments name, and says why where there is no answer.
pub fn run<R: Texts + Print + Eprint + AllocGlobal, A: Answer>(
    rt: &R,
    args: io::Result<Args>,
    program: &Program,
    answer: &A,
) -> ExitCode
    ensures ends { exit_status result ≤ 1 }
    ensures answered { exit_status result ≡ 0 → IsOkAnd args (λ a. AllAnswered (R.holds rt.now) (A.answers answer.now) (map (λ o. o.now) program.now.options.now) (map string_bytes (drop 1 (into_iter_items a)))) }
{
    match answer_arguments(rt, args, program, answer) {
        Ok(true) => ExitCode::SUCCESS,
        Ok(false) => ExitCode::FAILURE,
        Err(stop) => {
            let _ = eprintln!(rt; "{stop}");
            ExitCode::FAILURE
        }
    }
}
