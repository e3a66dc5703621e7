// The scan over any project finds its active schedules, each once. There is no code here.
#![tactic(auto)]
