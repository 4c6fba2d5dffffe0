// What holds between the answers on one group, as theorems in specs/; there is no code here.
#![tactic(auto)]
