// Numbers in a row, and sums, as text.
ghost use Rattle.std.specs.Prelude.{◌≡◌, ◌++◌, ◌+◌, ◌^◌, ◌<◌, string_bytes, OnOk, sum};
ghost use Rattle.std.specs.List.{flat_map};
ghost use Rattle.worksheet.specs.Worksheet.{number_text, row_text, more_text, sum_text};

use std::alloc::AllocError;

// The numbers of a list, each after a space.
fn write_numbers(out: &mut String, numbers: &[usize]) -> Result<(), AllocError>
    ensures { OnOk result (string_bytes out.new ≡ string_bytes out.old ++ flat_map number_text numbers.now) }
{
    for number in numbers {
        write!(out, " {number}")?;
    }
    Ok(())
}

// Numbers in a row, or that there are none.
pub(crate) fn write_row(out: &mut String, numbers: &[usize]) -> Result<(), AllocError>
    ensures { OnOk result (string_bytes out.new ≡ string_bytes out.old ++ row_text numbers.now) }
{
    if numbers.is_empty() {
        write!(out, " none")
    } else {
        write_numbers(out, numbers)
    }
}

// What numbers come to. A list is shorter than 2^64, so the sum fits, with room for 2^64 more.
pub(crate) fn total(terms: &[u64]) -> u128
    ensures is { result ≡ sum terms.now }
    ensures most { result + 2 ^ 64 < 2 ^ 128 }
{
    terms.iter().map(|term| u128::from(*term)).sum()
}

// The numbers that come after the first of a sum.
fn write_more(out: &mut String, terms: &[u64]) -> Result<(), AllocError>
    ensures { OnOk result (string_bytes out.new ≡ string_bytes out.old ++ more_text terms.now) }
{
    for term in terms {
        write!(out, " + {term}")?;
    }
    Ok(())
}

// Numbers and what they come to.
pub(crate) fn write_sum(out: &mut String, terms: &[u64]) -> Result<(), AllocError>
    ensures { OnOk result (string_bytes out.new ≡ string_bytes out.old ++ sum_text terms.now) }
{
    match terms {
        [] => write!(out, "0"),
        [only] => write!(out, "{only}"),
        [first, more @ ..] => {
            write!(out, "{first}")?;
            write_more(out, more)?;
            write!(out, " = {}", total(terms))
        }
    }
}
