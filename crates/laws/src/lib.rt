// The mathematics that the other crates stand on lives in specs/; there is no code here.
#![tactic(auto)]
