// The steps of the scan over any project. There is no code here.
#![tactic(auto)]
