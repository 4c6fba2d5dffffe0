// What the tables of symbols and records say of motions, as theorems in specs/; there is no code here.
#![tactic(auto)]
