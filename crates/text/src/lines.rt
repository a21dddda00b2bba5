// What the lines of a text have said so far.
ghost use Rattle.std.specs.Prelude.{◌≡◌, ◌==◌, ◌&&◌, not, map, Bool, List, [], Ok};
ghost use Rattle.std.specs.List.{before_first, flat_map, list_any};
ghost use Rattle.road.specs.Counts.{bit};
ghost use Rattle.text.specs.Words.{words as words_of, is_hash, lines_of};
ghost use Rattle.text.specs.Entries.{Entry, entry};
ghost use Rattle.text.specs.Format.{of_check, added, entries, marks_of, part_numbers, part_fault, unless_wrong, town_from, round_from, town_numbers, round_numbers, Tells};
ghost use Rattle.text.specs.Lines.{entry_of, part_entry};
ghost use Rattle.text.specs.Gathered.{Sets, Gathered, Gathers, GathersAll};

use crate::line::{Line, LineError, PartLine, at_line};
use crate::word::words;
use crate::{LineFault, RoundText, TextError, TownText};
use std::alloc::Global;

// What the lines have said of a town, and of a round and a sheet unless the town stands alone.
#[derive(Drop)]
pub(crate) struct Lines {
    pub(crate) alone: bool,
    pub(crate) crossings: Option<u64>,
    pub(crate) depot: Option<u64>,
    pub(crate) streets: Vec<u64>,
    pub(crate) round: Option<Vec<u64>>,
    pub(crate) parts: Vec<PartLine>,
}

// Sets what there is once.
fn set<T: Drop>(place: &mut Option<T>, value: T, second: LineFault) -> Result<(), LineError>
    ensures { Sets place.old value second place.new result }
{
    if place.is_some() {
        return Err(second.into());
    }
    *place = Some(value);
    Ok(())
}

impl Lines {
    fn new(heap: Global, alone: bool) -> Lines
        ensures { Gathered alone [] result }
    {
        Lines {
            alone,
            crossings: None,
            depot: None,
            streets: Vec::new(heap),
            round: None,
            parts: Vec::new(heap),
        }
    }

    // Whether a line may stand there at all: one of a round or a sheet may not where a town stands alone.
    fn takes(&self, line: &Line) -> bool
        ensures { result ≡ not (self.now.alone && of_check (entry_of line.now)) }
    {
        !(self.alone && matches!(line, Line::Round(_) | Line::Length | Line::Part(_)))
    }

    // Adds what a line says.
    fn add(&mut self, line: Line) -> Result<(), LineError>
        ensures { (alone : Bool) (es : List Entry) → Gathered alone es self.old → Gathers alone (added alone es (Ok (entry_of line))) self.new result }
    {
        if !self.takes(&line) {
            return Err(LineFault::OfCheck.into());
        }
        match line {
            Line::Nothing | Line::Length => Ok(()),
            Line::Crossings(n) => set(&mut self.crossings, n, LineFault::SecondCrossings),
            Line::Depot(d) => set(&mut self.depot, d, LineFault::SecondDepot),
            Line::Street(street) => Ok(self.streets.extend_from_slice(&street)?),
            Line::Round(legs) => set(&mut self.round, legs, LineFault::SecondRound),
            Line::Part(part) => Ok(self.parts.push(part)?),
        }
    }

    fn read_line(&mut self, heap: Global, number: usize, line: &str) -> Result<(), LineError>
        ensures { (alone : Bool) (es : List Entry) → Gathered alone es self.old → Gathers alone (added alone es (entry number (words_of (before_first is_hash line.now)))) self.new result }
    {
        let words = words(heap, line)?;
        self.add(Line::read(heap, number, words.as_slice())?)
    }

    // Reads every line, up to the first that is wrong.
    pub(crate) fn read(heap: Global, alone: bool, text: &str) -> Result<Lines, TextError>
        ensures { GathersAll alone (entries alone 1 [] (lines_of text.now)) result }
    {
        let mut lines = Lines::new(heap, alone);
        for (i, line) in text.split('\n').enumerate() {
            at_line(i + 1, lines.read_line(heap, i + 1, line))?;
        }
        Ok(lines)
    }

    // The town that the lines have told, if no line is missing.
    pub(crate) fn town(self) -> Result<TownText, TextError>
        ensures { (alone : Bool) (es : List Entry) → Gathered alone es self → Tells town_numbers (town_from es) result }
    {
        Ok(TownText {
            crossings: self.crossings.ok_or(TextError::NoCrossings)?,
            depot: self.depot.ok_or(TextError::NoDepot)?,
            streets: self.streets,
        })
    }

    // The town, round and sheet, if no line is missing and each part names crossings of the town. The town is not made by `town`, which uses the lines up.
    pub(crate) fn round(self, heap: Global) -> Result<RoundText, TextError>
        ensures { (alone : Bool) (es : List Entry) → Gathered alone es self → Tells round_numbers (round_from es) result }
    {
        let town = TownText {
            crossings: self.crossings.ok_or(TextError::NoCrossings)?,
            depot: self.depot.ok_or(TextError::NoDepot)?,
            streets: self.streets,
        };
        let legs = self.round.ok_or(TextError::NoRound)?;
        let parts = parts_as_numbers(heap, self.parts.as_slice(), town.crossings)?;
        Ok(RoundText { town, legs, parts })
    }
}

// The mark of a crossing: 1 if it is among these.
fn mark(crossings: &[u64], v: u64) -> u64
    ensures { result ≡ bit (list_any (λ w. w == v) crossings.now) }
{
    u64::from(crossings.contains(&v))
}

// A mark for each of so many crossings.
fn marks(heap: Global, crossings: &[u64], count: u64) -> Result<Vec<u64>, TextError>
    ensures { Tells (λ v. v.items) (Ok (marks_of count crossings.now)) result }
{
    Ok((0..count).map(|v| mark(crossings, v)).collect(heap)?)
}

// The parts as numbers: for each its weight and then a mark for each crossing; a town of more than 100 crossings is turned away, and has no more marks than 100.
fn parts_as_numbers(heap: Global, parts: &[PartLine], crossings: u64) -> Result<Vec<u64>, TextError>
    ensures { Tells (λ v. v.items) (unless_wrong (part_fault crossings (map part_entry parts.now)) (flat_map (part_numbers crossings) (map part_entry parts.now))) result }
{
    let mut numbers = Vec::new(heap);
    for part in parts {
        if !part.crossings.iter().all(|v| *v < crossings) {
            return Err(TextError::Line(part.line, LineFault::PartCrossing));
        }
        numbers.push(part.weight)?;
        let marks = marks(heap, part.crossings.as_slice(), crossings.min(100))?;
        numbers.extend_from_slice(marks.as_slice())?;
    }
    Ok(numbers)
}
