// The lexical grammar: specs/ states which characters are which token, proofs/ that exactly those are read.

#![tactic(auto)]
