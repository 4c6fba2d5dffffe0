// How texts stand in a lent buffer one behind the other is said in specs/; there is no code here.
#![tactic(auto)]
