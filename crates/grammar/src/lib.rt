// The grammar is in specs/: Grammar has its productions, Reader follows parser.rs, Capacity joins the two.

#![tactic(auto)]
