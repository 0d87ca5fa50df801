//! What certificates say: entries, their sets, the steps and skeletons that they allow, and when an entry is valid.
//! The definitions stand in `specs/`, after FAIR (Bradley, Somenzi, Hassan, Zhang, 2011) and IC3 (Bradley, 2011); here
//! are the types that they speak of, and their laws, which are contracts of calls that do nothing:
//!
//! - `steps_and_initial_states`: which steps an entry allows, and which states the initial cube holds;
//! - `sets_over_uses`: an entry's set and validity depend on the entries that its closed uses name;
//! - `reach_holds_runs`: reach entries hold every initial run;
//! - `loops_keep_sides`: the loop of a fair lasso lies on one side of each wall;
//! - `certificates_leave_no_lasso`: where no skeleton is allowed there is no fair lasso;
//! - `no_lasso_means_few_rounds`: where there is no fair lasso no run meets the property more often than there are states.
#![tactic(auto)]

mod entries;
mod laws;
mod skeletons;
pub mod worked_rows;

pub use entries::{Kind, Side, Use};
pub use laws::{
    certificates_leave_no_lasso, loops_keep_sides, no_lasso_means_few_rounds, reach_holds_runs,
    sets_over_uses, steps_and_initial_states,
};
pub use skeletons::{Situation, Skeleton};
