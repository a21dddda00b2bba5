// The planner: a shortest round of a town, and a sheet that agrees with it.
#![tactic(auto)]

mod check;
mod checked;
mod counts;
mod laws;
mod no_plan;
mod plan;
mod planner;
mod rooms;
mod tour;
mod write;

pub use check::plan_and_check;
pub use checked::Checked;
pub use no_plan::NoPlan;
pub use plan::Plan;
pub use planner::plan_round;
