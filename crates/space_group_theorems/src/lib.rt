// What holds of the groups that generators make, as theorems in specs/; there is no code here.
#![tactic(auto)]
