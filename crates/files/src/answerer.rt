// The answers to the texts that are named, one after another.
ghost use Rattle.std.specs.Prelude.{◌≡◌, ◌≤◌, Some, ℕ, List, length, map, IfOk, IsSome, IsTrue, All};
ghost use Rattle.files.specs.Names.{name_of};
ghost use Rattle.files.specs.Answered.{Answered, headed};

use crate::tally::{LastLine, Tally};
use crate::{Answer, Program, Reply, Source, Texts};
use std::fmt::Display;
use std::{fmt, io};

// Why a text has no answer.
#[derive(Drop)]
enum Fault<E> {
    Unread(io::Error),
    Unanswered(E),
}

impl<E: Display> fmt::Display for Fault<E> {
    fn fmt<W: fmt::Write>(&self, f: &mut fmt::Formatter<W>) -> fmt::Result {
        match self {
            Fault::Unread(e) => write!(f, "cannot read it: {e}"),
            Fault::Unanswered(e) => write!(f, "{e}"),
        }
    }
}

// An answer as it is printed: below a line that names its text, if there are several.
#[derive(Clone, Copy)]
struct Headed<'a> {
    name: Option<Source<'a>>,
    text: &'a str,
}

impl fmt::Display for Headed<'_> {
    ghost output = { λ h. Some (headed h.name h.text.now) };

    fn fmt<W: fmt::Write>(&self, f: &mut fmt::Formatter<W>) -> fmt::Result {
        if let Some(name) = self.name {
            writeln!(f, "# {name}")?;
        }
        f.write_str(self.text)
    }
}

// What a program answers with.
#[derive(Drop)]
pub(crate) struct Answerer<'a, R, A> {
    pub rt: &'a R,
    pub answer: &'a A,
    pub options: &'a [&'a str],
}

impl<R: Texts + Print + Eprint + AllocGlobal, A: Answer> Answerer<'_, R, A> {
    fn reply(&self, source: Source) -> Result<Reply, Fault<A::Fault>>
        ensures { IfOk result (λ r. (text : List ℕ) × R.holds self.now.rt.now (name_of source.entry) text × A.answers self.now.answer.now (map (λ o. o.now) self.now.options.now) text r) }
    {
        match self.rt.read(source) {
            Ok(text) => match self
                .answer
                .answer(self.rt.alloc(), self.options, text.as_str())
            {
                Ok(reply) => Ok(reply),
                Err(e) => Err(Fault::Unanswered(e)),
            },
            Err(e) => Err(Fault::Unread(e)),
        }
    }

    // Prints the answer to one text, or says why there is none.
    fn answer_one(&self, source: Source, several: bool) -> io::Result<Option<Reply>>
        ensures { IfOk result (λ o. IsSome o → Answered (R.holds self.now.rt.now) (A.answers self.now.answer.now (map (λ o. o.now) self.now.options.now)) (name_of source.entry)) }
    {
        match self.reply(source) {
            Ok(reply) => {
                let name = if several { Some(source) } else { None };
                self.rt.print(Headed {
                    name,
                    text: reply.text.as_str(),
                })?;
                Ok(Some(reply))
            }
            Err(fault) => {
                let _ = eprintln!(self.rt; "{source}: {fault}");
                Ok(None)
            }
        }
    }

    // Answers all texts.
    fn answer_each(&self, names: &[&str]) -> io::Result<Tally>
        ensures { IfOk result (λ t. t.answered ≡ length names.now → All (Answered (R.holds self.now.rt.now) (A.answers self.now.answer.now (map (λ o. o.now) self.now.options.now))) (map (λ x. x.now) names.now)) }
    {
        let several = names.len() > 1;
        let mut tally = Tally::new();
        for name in names {
            if let Some(reply) = self.answer_one(Source::named(*name), several)? {
                tally.add(reply.lengths);
            }
        }
        Ok(tally)
    }

    // Answers all texts, and says whether each has an answer; several have a last line.
    pub(crate) fn answer_all(&self, program: &Program, names: &[&str]) -> io::Result<bool>
        ensures { IfOk result (λ b. IsTrue b → All (Answered (R.holds self.now.rt.now) (A.answers self.now.answer.now (map (λ o. o.now) self.now.options.now))) (map (λ x. x.now) names.now)) }
    {
        let tally = self.answer_each(names)?;
        let named = names.len();
        if named > 1 {
            let done = program.done;
            self.rt.print(LastLine { tally, named, done })?;
        }
        Ok(tally.answered == named)
    }
}
