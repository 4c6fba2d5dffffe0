// The items of records: what their bytes say, and the rules of refusals 34 and 35 on them.
#![tactic(auto)]

mod allowed;
pub mod items;
pub mod rules;
