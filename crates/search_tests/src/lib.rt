// Small towns at random: the planner beside a search through all rounds, and the checker beside a plain one on rounds and sheets that are damaged.
#![tactic(auto)]

#[cfg(test)]
mod damage;
#[cfg(test)]
mod damaged;
#[cfg(test)]
mod plain;
#[cfg(test)]
mod planned;
#[cfg(test)]
mod search;
#[cfg(test)]
mod small_town;
#[cfg(test)]
mod tally;
#[cfg(test)]
mod written;
