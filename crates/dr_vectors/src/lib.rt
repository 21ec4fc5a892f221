//! Rows of definitions, by computation: what calls answer whose contracts say that the answer is the definition. It is
//! a crate of its own, since whatever is added to the definitions' crates has all crates proved again.
#![tactic(auto)]
