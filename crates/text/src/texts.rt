// A town, a round and a sheet as their text gives them: numbers that nothing is known of yet.
ghost use Rattle.std.specs.Prelude.{◌≡◌};
ghost use Rattle.road.specs.Refusals.{Answers};
ghost use Rattle.road.specs.Model.{model};
ghost use Rattle.text.specs.Format.{told_town, told_round, town_numbers, round_numbers, Tells};
ghost use Rattle.text.specs.Texts.{town_of, no_town, no_check, word_on};

use crate::TextError;
use crate::lines::Lines;
use road::{Refusal, Town};
use sheet::{Word, check_round};
use std::alloc::Global;

#[derive(Drop)]
pub struct TownText {
    pub crossings: u64,
    pub depot: u64,
    pub streets: Vec<u64>,
}

#[derive(Drop)]
pub struct RoundText {
    pub town: TownText,
    pub legs: Vec<u64>,
    pub parts: Vec<u64>,
}

impl TownText {
    // Reads a town, and nothing else.
    pub fn read(heap: Global, text: &str) -> Result<TownText, TextError>
        ensures { Tells town_numbers (told_town text.now) result }
    {
        Lines::read(heap, true, text)?.town()
    }

    // The town of these numbers, or its refusal.
    pub fn town(&self) -> Result<Town, Refusal>
        ensures { Answers (no_town (town_numbers self.now)) (λ t. (model t ≡ town_of (town_numbers self.now)) × (t.depot ≡ self.now.depot)) result }
    {
        Town::take(self.crossings, self.streets.as_slice(), self.depot)
    }
}

impl RoundText {
    // Reads a town, a round in it and a sheet.
    pub fn read(heap: Global, text: &str) -> Result<RoundText, TextError>
        ensures { Tells round_numbers (told_round text.now) result }
    {
        Lines::read(heap, false, text)?.round(heap)
    }

    // The checker's word on them, or a refusal.
    pub fn word(&self) -> Result<Word, Refusal>
        ensures { Answers (no_check (round_numbers self.now)) (λ w. w ≡ word_on (round_numbers self.now)) result }
    {
        check_round(
            self.town.crossings,
            self.town.streets.as_slice(),
            self.town.depot,
            self.legs.as_slice(),
            self.parts.as_slice(),
        )
    }
}
