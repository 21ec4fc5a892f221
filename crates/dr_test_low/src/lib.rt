//! Tests of types and states, of real files, and of calls that no command shows: at each function stands why it can't
//! be a case. What they show of each public call beside its contract: that it answers with ample memory.
#![tactic(auto)]

#[cfg(test)]
mod cells_tests;
#[cfg(test)]
mod files_tests;
#[cfg(test)]
mod outside_tests;
#[cfg(test)]
mod page_tests;
#[cfg(test)]
mod plain_tests;
#[cfg(test)]
mod rewrite_tests;
