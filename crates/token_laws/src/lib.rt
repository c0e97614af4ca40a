// What holds of every step of the tokenizer, and texts with their tokens: specs/ states it, proofs/ proves it.

#![tactic(auto)]
