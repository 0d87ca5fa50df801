//! Tests of searches for paths in small circuits: in some whose steps were worked out by hand, and in drawn ones against
//! a search of all states, also behind drawn entries, with closed sets as claims, certified, and limits one by one; and of
//! single steps; and of clauses that drawn states suggest as invariants.
#![tactic(auto)]

#[cfg(test)]
mod again;
#[cfg(test)]
mod asking;
#[cfg(test)]
mod behind_entries;
#[cfg(test)]
mod cases;
#[cfg(test)]
mod closing_sets;
#[cfg(test)]
mod drawing;
#[cfg(test)]
mod drawn_views;
#[cfg(test)]
mod entered;
#[cfg(test)]
mod invariants;
#[cfg(test)]
mod limits;
#[cfg(test)]
mod promised;
#[cfg(test)]
mod searching;
#[cfg(test)]
mod states;
#[cfg(test)]
mod stepping;
#[cfg(test)]
mod stops;
#[cfg(test)]
mod tests;
#[cfg(test)]
mod walled;
