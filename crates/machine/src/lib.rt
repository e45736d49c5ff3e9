#![tactic(auto)]

// The machine over what is kept of pages, the guard and the reference tree, and what is proved of both: specs/ has them. No code stands here.
