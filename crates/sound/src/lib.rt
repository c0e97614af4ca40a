// The tables that a load leaves are never refused with 22: specs/ states it, proofs/ proves it.

#![tactic(auto)]
