// Lists of calls of any kind, in specs/, with their laws. No code.
#![tactic(auto)]
