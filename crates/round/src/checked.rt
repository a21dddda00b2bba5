// A plan, with the checker's word on it.
use crate::Plan;
use sheet::Word;

#[derive(Clone, Copy)]
pub struct Checked {
    pub plan: Plan,
    pub word: Word,
}
