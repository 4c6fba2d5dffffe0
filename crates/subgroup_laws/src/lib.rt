// Subgroups of finite groups, as definitions and theorems in specs/; there is no code here.
#![tactic(auto)]
