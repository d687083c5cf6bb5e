// The tree of a run, its node list and its sheet, after binary_segmentation.rs. Inside the library.
// crates/demand says, clause by clause, what holds of them for every run. Assumes nothing.
#![tactic(auto)]

pub mod tree;
