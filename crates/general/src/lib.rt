// Definitions and laws that know nothing of Arm: the first number that passes a test, bytes written at chosen places, tests.
#![tactic(auto)]
