// Whole sessions: what a session is and what two of them share are the definitions in specs/; there is no executable code here.
#![tactic(auto)]
