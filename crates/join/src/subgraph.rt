// A town with the streets of a set alone.
use road::Town;

#[derive(Clone, Copy)]
pub(crate) struct Subgraph<'a> {
    pub town: &'a Town,
    pub set: &'a [bool; 300],
}
