// The sessions that the search finds for each variant are those of the whole plan. There is no code here.
#![tactic(auto)]
