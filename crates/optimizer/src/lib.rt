// Which rows of a segment may be split, and what a search answers with. Inside the library. After optimizer.rs and optimizer_result.rs.
#![tactic(auto)]

pub mod candidates;
pub mod gain;
pub mod marks;
pub mod optimizer_result;
