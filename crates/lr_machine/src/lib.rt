//! LR tables as plain data: what each state does on each token, where it goes along each name, and the rules' sides.
#![tactic(auto)]

mod cell;
mod rules;
mod tables;

pub use table_data::Act;
pub use tables::Tables;
