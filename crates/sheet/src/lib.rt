// A sheet's rules as values: specs/Sheet.antt.

#![tactic(auto)]
