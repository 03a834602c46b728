#![tactic(auto)]

// Definitions and laws about lists and numbers that more than one crate cites. No code.
