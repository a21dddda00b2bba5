// The checker: the word on a round and a sheet that somebody brings.
ghost use Rattle.std.specs.Prelude.{◌≡◌};
ghost use Rattle.road.specs.Numbers.{town_in, legs_in};
ghost use Rattle.sheet.specs.Numbers.{sheet_in};
ghost use Rattle.sheet.specs.Words.{sheet_fault, compared, judged, Finds, check_refusal, said, unless_refused};
ghost use Rattle.sheet.specs.Shown.{Shows};
ghost use Rattle.sheet.specs.Model.{parts_of, town_of};

use crate::parts::Parts;
use crate::{SheetFault, Word};
use road::{Refusal, Town};

impl Parts<'_, '_> {
    // Whether the parts are a sheet.
    fn check(&self) -> Result<(), SheetFault>
        ensures { Finds (sheet_fault (town_of self.now) (parts_of self.now)) result }
    {
        self.check_odd()?;
        self.check_loads()
    }

    // Compares a round with the sheet. The legs are fewer than 2^64 and a street is shorter than 2^17, all streets are at most 30,000,000
    // and the weights 4,000,000,000 together, so no sum wraps.
    fn compare(&self, legs: &[u64]) -> Word
        ensures { result ≡ compared (town_of self.now) (legs_in legs.now) (parts_of self.now) }
    {
        let length = self.town.length(legs);
        let shown = u128::from(2 * self.town.all_streets() + self.weights());
        if 2 * length == shown {
            Word::Shortest(length)
        } else {
            Word::Apart(length, (shown + 1) / 2)
        }
    }

    // The word on legs of streets, with these parts.
    fn judge(&self, legs: &[u64]) -> Word
        ensures { result ≡ judged (town_of self.now) self.now.town.now.depot (legs_in legs.now) (parts_of self.now) }
    {
        if let Err(fault) = self.town.check_as_round(legs) {
            return Word::NoRound(fault);
        }
        if let Err(fault) = self.check() {
            return Word::NoSheet(fault);
        }
        self.compare(legs)
    }
}

// The word on a round and a sheet, given as anybody may have written them; or the first refusal of 1 to 4, 7 and 8 that applies.
// Nothing is allocated and nothing lent is changed. A struct of the five would be taken apart at once.
pub fn check_round(
    crossings: u64,
    streets: &[u64],
    depot: u64,
    legs: &[u64],
    parts: &[u64],
) -> Result<Word, Refusal>
    ensures word { said result ≡ unless_refused (check_refusal crossings streets.now depot legs.now parts.now)
        (judged (town_in crossings streets.now) depot (legs_in legs.now) (sheet_in crossings parts.now)) }
    ensures shows { Shows (town_in crossings streets.now) depot (legs_in legs.now) result }
{
    let town = Town::take(crossings, streets, depot)?;
    town.check_legs(legs)?;
    let taken = Parts::take(&town, parts)?;
    Ok(taken.judge(legs))
}
