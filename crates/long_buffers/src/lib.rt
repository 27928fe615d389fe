// Short vectors in buffers that are laid out for longer ones (request 12): what lies beyond the vector length never changes and never
// matters. In specs/ the theorems and worked examples; no code that a host calls.
#![tactic(auto)]
