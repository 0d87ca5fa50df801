//! Tests of the board, on circuits of one latch, and of the ledger: scripts of events of several passes, and events that
//! are drawn, beside a plain board, driven by one thread; and races of passes on threads of their own.
#![tactic(auto)]

#[cfg(test)]
mod board_tests;
#[cfg(test)]
mod boards;
#[cfg(test)]
mod driving;
#[cfg(test)]
mod finds;
#[cfg(test)]
mod knowing;
#[cfg(test)]
mod passes;
#[cfg(test)]
mod passing;
#[cfg(test)]
mod plain;
#[cfg(test)]
mod promised;
#[cfg(test)]
mod races;
#[cfg(test)]
mod racing;
#[cfg(test)]
mod reading;
#[cfg(test)]
mod tests;
