// What executing a word is: in specs/ the one definition of it, of a run of words, and the worked examples; here only
// its answer. (Document 01 §5 to §7.)
#![tactic(auto)]

mod answer;

pub use answer::{Fault, Refusal, answer_fault};
