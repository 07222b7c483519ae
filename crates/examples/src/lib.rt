// The twelve examples of document 01, "Terms of the promises": they speak of the rules, in specs/, and have no code.
#![tactic(auto)]
