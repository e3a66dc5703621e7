// The branching of the search, over any frozen set and starts: each branch is sound, none is missing, none is twice.
// There is no code here.
#![tactic(auto)]
