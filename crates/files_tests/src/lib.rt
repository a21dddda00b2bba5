// Tests of files: what is printed of texts that a table holds, and how a call ends.
#![tactic(auto)]

#[cfg(test)]
mod tests;
