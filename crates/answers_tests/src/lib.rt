// Tests of answers by table: what the programs say of texts, and what is read from plans.
#![tactic(auto)]

#[cfg(test)]
mod checked;
#[cfg(test)]
mod planned;
