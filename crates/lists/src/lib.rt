#![tactic(auto)]

// Definitions and laws that every crate shares; specs/ has them. No code stands here.
