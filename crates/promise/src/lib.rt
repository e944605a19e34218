// What it is for a promise to determine a call: a definition (specs/), what a loose promise leaves open (proofs/), and no code.
#![tactic(auto)]
