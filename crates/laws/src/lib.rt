// Theorems about execution: no code that a host calls.
#![tactic(auto)]
