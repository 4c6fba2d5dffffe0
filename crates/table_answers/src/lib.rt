// What is answered on the bytes of a table, as definitions and theorems in specs/; there is no code here.
#![tactic(auto)]
