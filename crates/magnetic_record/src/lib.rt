// The record of a magnetic group, edition 2: the byte form of a group of flagged operations, six bytes an operation with the flag last.
// New in the port: the Rust has no such form.
#![tactic(auto)]

use centering::Centering;
use group_record::Refusal;
