// What the property maps of an entity are: specs/ states it in the theory's words, proofs/ proves it.

#![tactic(auto)]
