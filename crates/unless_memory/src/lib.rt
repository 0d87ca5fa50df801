//! What a call answers, unless it is refused memory: the one answer that no clause ties to a cause. The definitions
//! stand in `specs/`.
#![tactic(auto)]
