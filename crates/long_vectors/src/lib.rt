// Worked examples at the two longest vector lengths: no code that a host calls.
#![tactic(auto)]
