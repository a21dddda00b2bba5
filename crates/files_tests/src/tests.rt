// What is printed of texts that a table holds, and how it ends.
ghost use Rattle.std.specs.Prelude.{ℕ, List, ⊤};

use files::{Answer, Lengths, Program, Reply, Source, Texts, run};
use std::alloc::{AllocError, Global};
use std::cell::RefCell;
use std::fmt::Display;
use std::io;
use std::process::ExitCode;
use std::test::Fail;
use thiserror::Error;

// What is printed, where texts come from the table.
#[derive(Drop)]
struct Desk {
    heap: Global,
    full: bool,
    out: RefCell<String>,
    err: RefCell<String>,
}

const TEXTS: [(&str, &str); 4] = [("-", "read"), ("a", "one"), ("b\nc", "three"), ("bad", "x")];

impl Alloc for Desk {
    type A = Global;

    fn alloc(&self) -> Global {
        self.heap
    }
}

impl Texts for Desk {
    ghost holds = { λ _ _ _. ⊤ };

    fn read(&self, source: Source) -> io::Result<String> {
        let name = match source {
            Source::StandardInput => "-",
            Source::File(name) => name,
        };
        for (other, text) in TEXTS {
            if other == name {
                return Ok(String::from_str(self.heap, text)?);
            }
        }
        Err(io::Error::from(io::ErrorKind::NotFound))
    }
}

fn write_to<D: Display + Drop>(to: &RefCell<String>, value: D, end: &str) -> io::Result<()> {
    let Ok(mut to) = to.try_borrow_mut() else {
        return Err(io::Error::from(io::ErrorKind::Other));
    };
    write!(to, "{value}{end}")?;
    Ok(())
}

impl Print for Desk {
    fn print<D: Display + Drop>(&self, value: D) -> io::Result<()> {
        if self.full {
            return Err(io::Error::from(io::ErrorKind::StorageFull));
        }
        write_to(&self.out, value, "")
    }

    fn println<D: Display + Drop>(&self, value: D) -> io::Result<()> {
        write_to(&self.out, value, "\n")
    }

    fn write_all(&self, _bytes: &[u8]) -> io::Result<()> {
        Err(io::Error::from(io::ErrorKind::Unsupported))
    }
}

impl Eprint for Desk {
    fn eprint<D: Display + Drop>(&self, value: D) -> io::Result<()> {
        write_to(&self.err, value, "")
    }

    fn eprintln<D: Display + Drop>(&self, value: D) -> io::Result<()> {
        write_to(&self.err, value, "\n")
    }
}

#[derive(Debug, Drop, Error)]
enum Refusal {
    #[error("too short")]
    Short,
    #[error("out of memory")]
    Memory(#[from(alloc)] AllocError),
}

// Answers with the text, and with its lengths but for "three".
struct Echo;

impl Answer for Echo {
    ghost use Rattle.files.specs.declared.answer.Reply.{Reply};

    type Fault = Refusal;

    ghost answers = { λ _ _ _ _. ⊤ };

    fn answer(&self, heap: Global, options: &[&str], text: &str) -> Result<Reply, Refusal> {
        if text.len() < 2 {
            return Err(Refusal::Short);
        }
        let mark = if options.contains(&"--loud") { "!" } else { "" };
        let lengths = Lengths {
            round: text.len() as u128,
            streets: 1,
        };
        Ok(Reply {
            text: format!(in heap; "{text}{mark}\n")?,
            lengths: if text == "three" { None } else { Some(lengths) },
        })
    }
}

const PROGRAM: Program = Program {
    call: "echo [--loud] [FILE ..]",
    about: "Prints texts.\n",
    options: &["--loud"],
    done: "said",
};

// Arguments, what is printed on standard output and on standard error, and whether there is an answer to each.
const CALLS: [(&[&str], &str, &str, bool); 9] = [
    (&[], "read\n", "", true),
    (&["a"], "one\n", "", true),
    (
        &["a", "-"],
        "# a\none\n# standard input\nread\n# 2 of 2 said, length 7 of 2\n",
        "",
        true,
    ),
    (
        &["a", "d\re", "--loud", "bad", "b\nc"],
        "# a\none!\n# b?c\nthree!\n# 1 of 4 said, length 3 of 1\n",
        "d?e: cannot read it: entity not found\nbad: too short\n",
        false,
    ),
    (&["b\nc"], "three\n", "", true),
    (
        &["--loud", "--", "--loud", "a"],
        "# a\none!\n# 1 of 2 said, length 3 of 1\n",
        "--loud: cannot read it: entity not found\n",
        false,
    ),
    (
        &["a", "--help"],
        "usage: echo [--loud] [FILE ..]\n\nPrints texts.\n",
        "",
        true,
    ),
    (
        &["a", "-x\n", "--help"],
        "",
        "unknown option -x?: expected echo [--loud] [FILE ..]\n",
        false,
    ),
    (
        &["--loud=1"],
        "",
        "unknown option --loud=1: expected echo [--loud] [FILE ..]\n",
        false,
    ),
];

fn empty_desk(heap: Global, full: bool) -> Desk {
    Desk {
        heap,
        full,
        out: RefCell::new(String::new(heap)),
        err: RefCell::new(String::new(heap)),
    }
}

fn call(desk: &Desk, words: &[&str]) -> Result<ExitCode, AllocError> {
    let mut args = Vec::new(desk.heap);
    args.push(String::from_str(desk.heap, "echo")?)?;
    for word in words {
        args.push(String::from_str(desk.heap, word)?)?;
    }
    Ok(run(desk, Ok(args.into_iter()), &PROGRAM, &Echo))
}

#[test]
fn each_call(rt: HostRuntime) -> Result<(), Fail> {
    for (words, out, err, well) in CALLS {
        let desk = empty_desk(rt.alloc(), false);
        let code = call(&desk, words)?;
        assert_eq!(rt; desk.out.into_inner().as_str(), out);
        assert_eq!(rt; desk.err.into_inner().as_str(), err);
        assert_eq!(rt; code == ExitCode::SUCCESS, well);
    }
    Ok(())
}

// Where standard output takes nothing, the first answer is the last, and one line says why.
#[test]
fn unwritten(rt: HostRuntime) -> Result<(), Fail> {
    let desk = empty_desk(rt.alloc(), true);
    let code = call(&desk, &["a", "bad"])?;
    assert!(rt; code == ExitCode::FAILURE);
    assert_eq!(rt;
        desk.err.into_inner().as_str(),
        "cannot write the answer: no storage space\n"
    );
    Ok(())
}

// Arguments that cannot be read end in one line too.
#[test]
fn unread(rt: HostRuntime) -> Result<(), Fail> {
    let desk = empty_desk(rt.alloc(), false);
    let args = Err(io::Error::from(io::ErrorKind::InvalidData));
    let code = run(&desk, args, &PROGRAM, &Echo);
    assert!(rt; code == ExitCode::FAILURE);
    assert_eq!(rt;
        desk.err.into_inner().as_str(),
        "cannot read the arguments: invalid data\n"
    );
    Ok(())
}
