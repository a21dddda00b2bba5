// What a program says of itself.
ghost use Rattle.std.specs.Prelude.{Some};
ghost use Rattle.files.specs.Answered.{help};

use std::fmt;

#[derive(Clone, Copy)]
pub struct Program<'a> {
    // How it is called, such as "plan [FILE ..]".
    pub call: &'a str,
    // What it does, in whole lines.
    pub about: &'a str,
    // The options that it knows beside --help.
    pub options: &'a [&'a str],
    // What is said of a text that went well, such as "planned".
    pub done: &'a str,
}

// A program's help.
#[derive(Clone, Copy)]
pub(crate) struct Help<'a>(pub &'a Program<'a>);

impl fmt::Display for Help<'_> {
    ghost output = { λ h. Some (help h.0.now.call.now h.0.now.about.now) };

    fn fmt<W: fmt::Write>(&self, f: &mut fmt::Formatter<W>) -> fmt::Result {
        let call = self.0.call;
        let about = self.0.about;
        write!(f, "usage: {call}\n\n{about}")
    }
}
