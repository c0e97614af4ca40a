// What holds of the engine's calls, in the words of the request: specs/ states it, proofs/ proves it.

#![tactic(auto)]
