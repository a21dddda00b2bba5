// The worksheet of the round and the sheet that a text tells, with the checker's word beneath.
ghost use Rattle.std.specs.Prelude.{MatchResult};
ghost use Rattle.text.specs.Format.{told_round};
ghost use Rattle.text.specs.Texts.{no_check};
ghost use Rattle.answers.specs.Answers.{Worksheets, Refuses};

use crate::NoAnswer;
use crate::check::shortest_lengths_of;
use files::Reply;
use std::alloc::Global;
use text::{RoundText, Said};
use worksheet::worksheet;

// What a reader ticks line by line, and the checker's word.
pub fn worksheet_answer(heap: Global, text: &str) -> Result<Reply, NoAnswer>
    ensures { MatchResult result (Worksheets text.now) (Refuses (told_round text.now) no_check) }
{
    let given = RoundText::read(heap, text)?;
    let word = given.word()?;
    let town = given.town.town()?;
    let lines = worksheet(heap, &town, given.legs.as_slice(), given.parts.as_slice())?;
    let said = Said(word);
    Ok(Reply {
        text: format!(in heap; "{lines}{said}\n")?,
        lengths: shortest_lengths_of(word, town.all_streets()),
    })
}
