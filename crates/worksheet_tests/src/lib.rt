// Tests of worksheet by table: whole worksheets, as they are printed.
#![tactic(auto)]

#[cfg(test)]
mod tests;
