// The rules that tables spell: specs/ has them as a function of the tables and the bundle, and that a load's tables spell the grammar's rules; proofs/ proves it.

#![tactic(auto)]
