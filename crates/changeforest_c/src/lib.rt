// The entry points for C and Rust hosts: thin exports over the crates `entry_..`. Each answers 0 or the number of a refusal; what it finds is
// stored through the last arguments, which a refusal leaves as they were, like every lent slice. A slice is a pointer and a length in
// entries.
#![tactic(auto)]

pub mod curves;
pub mod feeding;
pub mod lengths;
pub mod mean;
pub mod neighbours;
pub mod segments;
pub mod tree;
pub mod two_step;
pub mod why;
