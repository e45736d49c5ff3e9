#![tactic(auto)]

// The rules of calls, replies, saves and loads, and the machine that follows them, as definitions. No code stands here.
