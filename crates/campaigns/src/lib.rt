// The worked campaigns of the paper, proved of the definitions. There is no code here.
#![tactic(auto)]
