// Terms and their variants: definitions and the facts about them. There is no code here.
#![tactic(auto)]
