// Groups grown from generators in any keyed monoid, as definitions and theorems in specs/; there is no code here.
#![tactic(auto)]
