// The plan file as text: definitions and the facts about them. There is no code here.
#![tactic(auto)]
