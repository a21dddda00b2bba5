// How often each kind of answer came up.
use road::{Fault, Refusal};
use sheet::{SheetFault, Word};

#[derive(Drop)]
pub(crate) struct Tally {
    pub counts: [u64; 9],
}

// The place of a kind of answer; those that do not come up are left out.
fn place(answer: Result<Word, Refusal>) -> Option<usize> {
    match answer {
        Ok(Word::NoRound(Fault::Leg(_))) => Some(0),
        Ok(Word::NoRound(Fault::Home)) => Some(1),
        Ok(Word::NoRound(Fault::Street(_))) => Some(2),
        Ok(Word::NoSheet(SheetFault::Part(_))) => Some(3),
        Ok(Word::NoSheet(SheetFault::Street(_))) => Some(4),
        Ok(Word::Shortest(_)) => Some(5),
        Ok(Word::Apart(_, _)) => Some(6),
        Err(Refusal::NoStreet(_)) => Some(7),
        Err(Refusal::Parts(_)) => Some(8),
        Err(_) => None,
    }
}

impl Tally {
    pub(crate) fn new() -> Tally {
        Tally { counts: [0; 9] }
    }

    pub(crate) fn count(&mut self, answer: Result<Word, Refusal>) {
        if let Some(count) = place(answer).and_then(|k| self.counts.get_mut(k)) {
            *count = count.saturating_add(1);
        }
    }

    // How often the rarest came up.
    pub(crate) fn least(&self) -> u64 {
        self.counts.iter().copied().fold(u64::MAX, u64::min)
    }
}
