// What style calls answer is the theory's: definitions and theorems alone.

#![tactic(auto)]
