// Tests of least extra drives: towns with known lengths, and random towns beside the least of all sets.
#![tactic(auto)]

#[cfg(test)]
mod built;
#[cfg(test)]
mod common;
#[cfg(test)]
mod random;
#[cfg(test)]
mod shown;
#[cfg(test)]
mod table;
