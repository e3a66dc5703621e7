// Schedules of a project: definitions and the facts about them. There is no code here.
#![tactic(auto)]
