// Document 01 as definitions (specs/), laws about them (proofs/) and the marked cases M1 to M11 (specs/Marked.antt).
// No code: every other crate's contracts cite these definitions. Assumes nothing.
#![tactic(auto)]
