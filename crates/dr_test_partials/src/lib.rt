//! Tests of scans, serving trees and partials. What they show of each public call beside its contract: that it answers
//! with ample memory.
#![tactic(auto)]

#[cfg(test)]
mod agreement_tests;
#[cfg(test)]
mod growing_tests;
#[cfg(test)]
mod meant;
#[cfg(test)]
mod scan_tests;
#[cfg(test)]
mod worked;
