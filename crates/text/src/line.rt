// A line of a text: what it says, or what is wrong with it.
ghost use Rattle.std.specs.Prelude.{◌≡◌, map};
ghost use Rattle.std.specs.Option.{ok_or, option_map};
ghost use Rattle.text.specs.declared.line.LineError.TheVariants.{Memory, Fault};
ghost use Rattle.text.specs.declared.line_fault.LineFault.TheVariants.{Round, Part};
ghost use Rattle.text.specs.Words.{number_in, leg_in, each};
ghost use Rattle.text.specs.Entries.{RoundIs, PartIs, entry, number_alone as number_alone_in, numbers_in, is_length as is_length_of, part_in};
ghost use Rattle.text.specs.Lines.{entry_of, result_at, TellsLine};

use crate::word::{leg, number};
use crate::{LineFault, TextError};
use std::alloc::{AllocError, AllocFailed, Global};

// A part: its line, counted from 1, its weight and its crossings.
#[derive(Drop)]
pub(crate) struct PartLine {
    pub(crate) line: usize,
    pub(crate) weight: u64,
    pub(crate) crossings: Vec<u64>,
}

#[derive(Drop)]
pub(crate) enum Line {
    Nothing,
    Crossings(u64),
    Depot(u64),
    Street([u64; 3]),
    Round(Vec<u64>),
    Length,
    Part(PartLine),
}

#[derive(Drop)]
pub(crate) enum LineError {
    Fault(LineFault),
    Memory,
}

// By hand, since it says which case it gives.
impl From<AllocError> for LineError {
    ghost from_gives = { λ _ r. r ≡ Memory };

    fn from(_e: AllocError) -> LineError {
        LineError::Memory
    }
}

impl<T: Drop> From<AllocFailed<T>> for LineError {
    ghost from_gives = { λ _ r. r ≡ Memory };

    fn from(_e: AllocFailed<T>) -> LineError {
        LineError::Memory
    }
}

impl From<LineFault> for LineError {
    ghost from_gives = { λ f r. r ≡ Fault f };

    fn from(fault: LineFault) -> LineError {
        LineError::Fault(fault)
    }
}

// The one number that the words write.
fn number_alone(words: &[&str]) -> Option<u64>
    ensures { result ≡ number_alone_in (map (λ w. w.now) words.now) }
{
    match words {
        [word] => number(word),
        _ => None,
    }
}

// The three numbers of a street.
fn street(words: &[&str]) -> Option<[u64; 3]>
    ensures { result ≡ numbers_in 3 (map (λ w. w.now) words.now) }
{
    let [one, two, long] = words else {
        return None;
    };
    Some([number(one)?, number(two)?, number(long)?])
}

// Whether the words are the length of a round and that of all streets. The checker works both out, and keeps neither.
fn is_length(words: &[&str]) -> bool
    ensures { result ≡ is_length_of (map (λ w. w.now) words.now) }
{
    let [long, of, all] = words else {
        return false;
    };
    number(long).is_some() && *of == "of" && number(all).is_some()
}

// The legs of a round.
fn legs(heap: Global, words: &[&str]) -> Result<Line, LineError>
    ensures { TellsLine entry_of (ok_or (option_map RoundIs (each leg_in (map (λ w. w.now) words.now))) Round) result }
{
    let mut legs = Vec::new(heap);
    for word in words {
        let Some(leg) = leg(word) else {
            return Err(LineError::Fault(LineFault::Round));
        };
        legs.push(leg)?;
    }
    Ok(Line::Round(legs))
}

// The crossings of a part. One function for these and for legs would take the reader of a word as a closure, and be longer than both.
fn crossings(heap: Global, words: &[&str]) -> Result<Vec<u64>, LineError>
    ensures { TellsLine (λ v. v.items) (ok_or (each number_in (map (λ w. w.now) words.now)) Part) result }
{
    let mut crossings = Vec::new(heap);
    for word in words {
        let Some(crossing) = number(word) else {
            return Err(LineError::Fault(LineFault::Part));
        };
        crossings.push(crossing)?;
    }
    Ok(crossings)
}

// A part of a sheet.
fn part(heap: Global, line: usize, words: &[&str]) -> Result<Line, LineError>
    ensures { TellsLine entry_of (ok_or (option_map PartIs (part_in line (map (λ w. w.now) words.now))) Part) result }
{
    let [first, at, rest @ ..] = words else {
        return Err(LineFault::Part.into());
    };
    if *at != "at" {
        return Err(LineFault::Part.into());
    }
    let Some(weight) = number(first) else {
        return Err(LineFault::Part.into());
    };
    let crossings = crossings(heap, rest)?;
    Ok(Line::Part(PartLine {
        line,
        weight,
        crossings,
    }))
}

impl Line {
    // What a line of that number and of these words says.
    pub(crate) fn read(heap: Global, line: usize, words: &[&str]) -> Result<Line, LineError>
        ensures { TellsLine entry_of (entry line (map (λ w. w.now) words.now)) result }
    {
        let Some((first, rest)) = words.split_first() else {
            return Ok(Line::Nothing);
        };
        match *first {
            "crossings" => Ok(Line::Crossings(number_alone(rest).ok_or(LineFault::Crossings)?)),
            "depot" => Ok(Line::Depot(number_alone(rest).ok_or(LineFault::Depot)?)),
            "street" => Ok(Line::Street(street(rest).ok_or(LineFault::Street)?)),
            "round" => legs(heap, rest),
            "length" if is_length(rest) => Ok(Line::Length),
            "length" => Err(LineFault::Length.into()),
            "part" => part(heap, line, rest),
            _ => Err(LineFault::FirstWord.into()),
        }
    }
}

// The same of a text, at the line of that number.
pub(crate) fn at_line(number: usize, res: Result<(), LineError>) -> Result<(), TextError>
    ensures { result ≡ result_at number res }
{
    match res {
        Ok(()) => Ok(()),
        Err(LineError::Fault(fault)) => Err(TextError::Line(number, fault)),
        Err(LineError::Memory) => Err(TextError::Memory),
    }
}
