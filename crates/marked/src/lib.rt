// The marked cases of a load: specs/ has them in one table, and they are worked out by computation.

#![tactic(auto)]
