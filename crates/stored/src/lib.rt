// The memory that records stand in, and what a segment chooses among them. Inside the library. After segmentation.rs.
#![tactic(auto)]

pub mod choice;
pub mod records;
