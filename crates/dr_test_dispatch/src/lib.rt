//! Tests of dispatch: a board, and a desk that threads share. What they show of each public call beside its contract:
//! that it answers with ample memory.
#![tactic(auto)]

#[cfg(test)]
mod board_tests;
#[cfg(test)]
mod desk_tests;
