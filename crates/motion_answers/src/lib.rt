// What is answered on the groups of symbols and records, as definitions and theorems in specs/; there is no code here.
#![tactic(auto)]
