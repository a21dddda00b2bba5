// The checker's word on the round and sheet that a text tells, as a text.
ghost use Rattle.std.specs.Prelude.{◌≡◌, ◌^◌, ◌<◌, ℕ, ◌↔◌, string_bytes, IfOk, IfSome, MatchResult};
ghost use Rattle.text.specs.Format.{told_round};
ghost use Rattle.text.specs.Texts.{no_check};
ghost use Rattle.answers.specs.Answers.{Checks, TellsShortest, ShortestOf, shortest_line, shortest_lengths, Refuses};

use crate::NoAnswer;
use files::{Lengths, Reply};
use sheet::Word;
use std::alloc::Global;
use text::{RoundText, Said};

// The lengths of a round that is a shortest one, beside that of all streets.
pub(crate) fn shortest_lengths_of(word: Word, streets: u64) -> Option<Lengths>
    ensures is { result ≡ shortest_lengths streets word }
    ensures small { IfSome result (λ l. l.round < 2 ^ 128) }
{
    match word {
        Word::Shortest(round) => Some(Lengths {
            round,
            streets: u128::from(streets),
        }),
        _ => None,
    }
}

// Checks the round and the sheet that a text tells.
pub fn check_answer(heap: Global, text: &str) -> Result<Reply, NoAnswer>
    ensures checked { MatchResult result (Checks text.now) (Refuses (told_round text.now) no_check) }
    ensures shortest { (n : ℕ) → n < 10 ^ 64 → IfOk result (λ a. (string_bytes a.text ≡ shortest_line n) ↔ TellsShortest text.now n) }
    ensures least { (n : ℕ) → n < 10 ^ 64 → IfOk result (λ a. string_bytes a.text ≡ shortest_line n → ShortestOf text.now n) }
{
    let given = RoundText::read(heap, text)?;
    let word = given.word()?;
    let said = Said(word);
    let streets = given.town.town()?.all_streets();
    Ok(Reply {
        text: format!(in heap; "{said}\n")?,
        lengths: shortest_lengths_of(word, streets),
    })
}
