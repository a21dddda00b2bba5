// Tests of the pairs of odd crossings: towns by hand and by rule, with the length of their extra drives.
#![tactic(auto)]

#[cfg(test)]
mod built;
#[cfg(test)]
mod common;
#[cfg(test)]
mod paired;
#[cfg(test)]
mod worked;
