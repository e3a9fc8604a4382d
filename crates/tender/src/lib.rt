// The conditions of the tender, as theorems: see specs/. No code.
#![tactic(auto)]
