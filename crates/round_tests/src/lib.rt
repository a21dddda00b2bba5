// Tests of the planner: towns by hand and by rule with the checker's word on what was written, refusals, and rooms that are too short.
#![tactic(auto)]

#[cfg(test)]
mod built;
#[cfg(test)]
mod edges;
#[cfg(test)]
mod fits;
#[cfg(test)]
mod planned;
#[cfg(test)]
mod refusals;
#[cfg(test)]
mod rooms;
#[cfg(test)]
mod worked;
