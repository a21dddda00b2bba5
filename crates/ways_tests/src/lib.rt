// Tests of shortest ways: a table of towns, and random towns beside another method.
#![tactic(auto)]

#[cfg(test)]
mod common;
#[cfg(test)]
mod random;
#[cfg(test)]
mod table;
