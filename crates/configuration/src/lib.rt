// The configuration that is delivered: definitions only (specs/Delivered.antt).

#![tactic(auto)]
