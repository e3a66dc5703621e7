// What the project proves of its calls, one theorem for each demand: `proofs/Theorems.antt`. There is no code here.
#![tactic(auto)]
