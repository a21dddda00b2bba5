// The arguments of a program: options and names.
ghost use Rattle.std.specs.Prelude.{◌≡◌, ◌++◌, IfOk, OnOk, map, filter, not, position, string_bytes, option_map};
ghost use Rattle.files.specs.Arguments.{is_option, is_end, before_end, after_end, options_of, named, names_of, first_unknown};

use std::alloc::{AllocError, Global};

#[derive(Drop)]
pub(crate) struct Arguments<'a> {
    pub options: Vec<&'a str>,
    // At least one; - is standard input.
    pub names: Vec<&'a str>,
}

fn is_option(arg: &str) -> bool
    ensures { result ≡ is_option arg.now }
{
    let bytes = arg.as_bytes();
    bytes.len() > 1 && bytes[0] == b'-'
}

// Where the options end, if that is said.
fn end_of_options(args: &[String]) -> Option<usize>
    ensures { result ≡ position is_end (map string_bytes args.now) }
{
    args.iter()
        .map(|arg| arg.as_str())
        .position(|arg| arg == "--")
}

// The arguments before the first --, and those after it.
fn split_at_end<'a>(args: &'a [String]) -> (&'a [String], &'a [String])
    ensures before { map string_bytes result.0.now ≡ before_end (map string_bytes args.now) }
    ensures after { map string_bytes result.1.now ≡ after_end (map string_bytes args.now) }
{
    match end_of_options(args) {
        Some(i) => (&args[..i], &args[i + 1..]),
        None => (args, &[]),
    }
}

impl<'a> Arguments<'a> {
    // The options before the end of the options, and the names there.
    fn sorted(heap: Global, before: &'a [String]) -> Result<Arguments<'a>, AllocError>
        ensures options { IfOk result (λ a. map (λ o. o.now) a.options.items ≡ filter is_option (map string_bytes before.now)) }
        ensures names { IfOk result (λ a. map (λ o. o.now) a.names.items ≡ filter (λ x. not (is_option x)) (map string_bytes before.now)) }
    {
        let mut options = Vec::new(heap);
        let mut names = Vec::new(heap);
        for arg in before {
            let arg = arg.as_str();
            if is_option(arg) {
                options.push(arg)?;
            } else {
                names.push(arg)?;
            }
        }
        Ok(Arguments { options, names })
    }

    // All after the end of the options are names.
    fn add_names(&mut self, after: &'a [String]) -> Result<(), AllocError>
        ensures options { self.new.options ≡ self.old.options }
        ensures names { OnOk result (map (λ o. o.now) self.new.names.items ≡ map (λ o. o.now) self.old.names.items ++ map string_bytes after.now) }
    {
        for arg in after {
            self.names.push(arg.as_str())?;
        }
        Ok(())
    }

    // What is named is standard input if nothing is named.
    pub(crate) fn read(heap: Global, args: &'a [String]) -> Result<Arguments<'a>, AllocError>
        ensures options { IfOk result (λ a. map (λ o. o.now) a.options.items ≡ options_of (map string_bytes args.now)) }
        ensures names { IfOk result (λ a. map (λ o. o.now) a.names.items ≡ names_of (map string_bytes args.now)) }
    {
        let (before, after) = split_at_end(args);
        let mut arguments = Arguments::sorted(heap, before)?;
        arguments.add_names(after)?;
        if arguments.names.is_empty() {
            arguments.names.push("-")?;
        }
        Ok(arguments)
    }

    // The first option that is not known.
    pub(crate) fn unknown(&self, known: &[&str]) -> Option<&'a str>
        ensures { option_map (λ o. o.now) result ≡ first_unknown (map (λ o. o.now) known.now) (map (λ o. o.now) self.now.options.items) }
    {
        self.options
            .iter()
            .copied()
            .find(|option| !known.contains(option))
    }
}
