#![tactic(auto)]

// The read-only guard, over the guard's step, and its claim: specs/ has them. No code stands here.
