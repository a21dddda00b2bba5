// Pieces of the lines of a worksheet, from their numbers.
ghost use Rattle.std.specs.Prelude.{◌≡◌, ◌++◌, ◌+◌, ◌^◌, ◌<◌, string_bytes, OnOk};
ghost use Rattle.worksheet.specs.Worksheet.{odd_text, out_text, weight_text, most_text, bears_text, sum_line, equal_text, twice_round_text, twice_streets_text, outcome_text, compared_text};

use crate::rows::{total, write_row, write_sum};
use std::alloc::AllocError;

// Whether a number is odd, as it has to be.
fn odd_word(number: usize) -> &'static str
    ensures { result.now ≡ odd_text number }
{
    if number % 2 == 1 {
        "odd"
    } else {
        "even, not allowed"
    }
}

fn equal_word(one: u128, two: u128) -> &'static str
    ensures { result.now ≡ equal_text one two }
{
    if one == two {
        "they are equal"
    } else {
        "they differ"
    }
}

// The streets that lead out of a part.
pub(crate) fn write_streets_out(out: &mut String, streets: &[usize]) -> Result<(), AllocError>
    ensures { OnOk result (string_bytes out.new ≡ string_bytes out.old ++ out_text streets.now) }
{
    write!(out, "; out lead streets")?;
    write_row(out, streets)
}

// How many streets lead out of a part, and its weight.
pub(crate) fn write_weight(out: &mut String, number: usize, weight: u64) -> Result<(), AllocError>
    ensures { OnOk result (string_bytes out.new ≡ string_bytes out.old ++ weight_text number weight) }
{
    write!(
        out,
        ", {number} of them ({}); weight {weight}\n",
        odd_word(number)
    )
}

// The most that a street may bear, and whether it bears more.
fn write_most(out: &mut String, weights: &[u64], most: u128) -> Result<(), AllocError>
    ensures { OnOk result (string_bytes out.new ≡ string_bytes out.old ++ most_text weights.now most) }
{
    if total(weights) <= most {
        write!(out, ", at most {most}\n")
    } else {
        write!(out, ", more than {most}, not allowed\n")
    }
}

// The weights that a street bears, and the most that it may.
pub(crate) fn write_bears(
    out: &mut String,
    k: usize,
    weights: &[u64],
    most: u128,
) -> Result<(), AllocError>
    ensures { OnOk result (string_bytes out.new ≡ string_bytes out.old ++ bears_text k weights.now most) }
{
    write!(out, "street {k}: bears ")?;
    write_sum(out, weights)?;
    write_most(out, weights, most)
}

// A sum, after some words.
#[tactic(auto, unfolding(crate::specs::Worksheet::sum_line))]
pub(crate) fn write_sum_line(out: &mut String, words: &str, terms: &[u64]) -> Result<(), AllocError>
    ensures { OnOk result (string_bytes out.new ≡ string_bytes out.old ++ sum_line words.now terms.now) }
{
    write!(out, "{words}")?;
    write_sum(out, terms)?;
    write!(out, "\n")
}

#[tactic(auto, unfolding(crate::specs::Worksheet::twice_round_text))]
fn write_twice_round(out: &mut String, round: u128) -> Result<(), AllocError>
    ensures { OnOk result (string_bytes out.new ≡ string_bytes out.old ++ twice_round_text round) }
{
    write!(out, "twice the round is {round}, ")
}

#[tactic(auto, unfolding(crate::specs::Worksheet::twice_streets_text))]
fn write_twice_streets(out: &mut String, streets: u128, weights: u128) -> Result<(), AllocError>
    ensures { OnOk result (string_bytes out.new ≡ string_bytes out.old ++ twice_streets_text streets weights) }
{
    write!(
        out,
        "twice all streets and the weights are {streets} + {weights} = "
    )
}

// What these come to, and whether the round is as much.
#[tactic(auto, unfolding(crate::specs::Worksheet::outcome_text))]
fn write_outcome(out: &mut String, round: u128, shown: u128) -> Result<(), AllocError>
    ensures { OnOk result (string_bytes out.new ≡ string_bytes out.old ++ outcome_text round shown) }
{
    write!(out, "{shown}: {}\n", equal_word(round, shown))
}

// The round, beside all streets and the weights, each twice.
pub(crate) fn write_compared(
    out: &mut String,
    round: u128,
    streets: u128,
    weights: u128,
) -> Result<(), AllocError>
    requires { streets + weights < 2 ^ 128 }
    ensures { OnOk result (string_bytes out.new ≡ string_bytes out.old ++ compared_text round streets weights) }
{
    write_twice_round(out, round)?;
    write_twice_streets(out, streets, weights)?;
    write_outcome(out, round, streets + weights)
}
