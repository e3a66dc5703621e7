// Laws of tests that hold or not, for the proofs of every crate above. There is no code here.
#![tactic(auto)]
