// "any two outcomes it allows are the same one", which proofs/ shows of every public contract; there is nothing to run here.
#![tactic(auto)]
