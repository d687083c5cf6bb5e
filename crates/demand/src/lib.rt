// The theorem on trees and sheets, of the definitions alone: specs/Demand.antt says, clause by clause, what holds of every run; proofs/Demand.antt
// proves it. There is no code here. Assumes nothing.
#![tactic(auto)]
