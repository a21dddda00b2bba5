// A text in one line, whatever is in it.
ghost use Rattle.std.specs.Prelude.{◌≡◌, Some};
ghost use Rattle.files.specs.Names.{shown, one_line};

use std::fmt;

// Control characters, line breaks among them, are shown as question marks.
#[derive(Clone, Copy)]
pub(crate) struct OneLine<'a>(pub &'a str);

fn shown(c: char) -> char
    ensures { result ≡ shown c }
{
    if c.is_control() { '?' } else { c }
}

impl fmt::Display for OneLine<'_> {
    ghost output = { λ s. Some (one_line s.0.now) };

    fn fmt<W: fmt::Write>(&self, f: &mut fmt::Formatter<W>) -> fmt::Result {
        for c in self.0.chars() {
            f.write_char(shown(c))?;
        }
        Ok(())
    }
}
