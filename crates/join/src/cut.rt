// A set of crossings, as the set of the streets with just one end in it.
use road::Town;

#[derive(Clone, Copy)]
pub(crate) struct Cut<'t, 'm> {
    pub town: &'t Town,
    pub marks: &'m [bool; 100],
}
