// The entries for C: each hands on the number that a room above answers. include/symmetry.h declares them.
#![tactic(auto)]

pub mod catalogues;
pub mod comparison;
pub mod editions;
pub mod layer;
pub mod line;
pub mod list;
pub mod magnetic;
pub mod magnetic_records;
pub mod record;
pub mod record_groups;
pub mod symbol;
pub mod symbol_groups;
pub mod table;
