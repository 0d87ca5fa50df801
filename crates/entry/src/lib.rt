//! What an entry of a certificate is with its proofs, and its check.
//!
//! - `first_bad_use`: the first of a line of uses that may not stand where it does;
//! - `clause_from_aiger`: a clause of an entry, from the literals of its line; `LatchNumbers::clause`: the same by a table;
//! - `holds_initial`, `first_baseless`: what is asked of the clauses of a reach entry;
//! - `used`: the entries that uses name, as obligations take them;
//! - `Judge`: the proofs of an entry or a refutation, line by line;
//! - `check_entry`, `refutation_fault`: an entry or a refutation as a whole;
//! - `Checked`: an entry that was checked behind a view, and holds wherever the entries that it uses stand;
//! - `threads_share_checked`: nothing: threads may share a checked entry;
//! - `share`, `catch_up`: the handles of a view copied; those that it has more than was seen taken in;
//! - `list_of`: the entries of a view without their proofs;
//! - `lend_view`, `lend_used`: the entries of a view, or those that uses name, as clauses take them;
//! - `side`, `excludes`: on which side of an entry of a view a state lies, and which skeletons the entry excludes;
//! - `faultless_is_proved`: no fault is found exactly where an entry is proved;
//! - `proved_entries_are_valid`, `good_lists_grow`: a proved entry is valid behind valid ones;
//! - `older_views`: what stands in a list stands in each list that goes on from it;
//! - `refutations_leave_no_lasso`: over valid entries a good refutation leaves no fair lasso.
#![tactic(auto)]

mod checked;
mod clauses;
mod entries;
mod faults;
mod judge;
mod laws;
mod list;
mod origins;
mod refutations;
mod sides;
mod tables;
mod uses;
mod views;

pub use checked::{Checked, threads_share_checked};
pub use clauses::{clause_from_aiger, first_baseless, holds_initial};
pub use entries::{Entry, check_entry};
pub use fair_semantics::{Kind, Side, Use};
pub use faults::{EntryEnd, EntryFault, RefutationFault};
pub use judge::Judge;
pub use laws::{
    faultless_is_proved, good_lists_grow, older_views, proved_entries_are_valid,
    refutations_leave_no_lasso,
};
pub use list::{Listed, UsedEntry, used};
pub use origins::{Origin, Work};
pub use refutations::{Refutation, refutation_fault};
pub use sides::{excludes, side};
pub use tables::LatchNumbers;
pub use uses::{User, first_bad_use};
pub use views::{catch_up, lend_used, lend_view, list_of, share};
