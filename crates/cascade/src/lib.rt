// The meaning of a sheet is in specs/, beginning with Match, Cascade, Style and Draw; the theorems are Meaning and Isolation.

#![tactic(auto)]
