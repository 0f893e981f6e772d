// Document 01's marked cases, which specs/ proves of the definitions; there is nothing to run here.
#![tactic(auto)]
