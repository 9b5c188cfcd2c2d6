//! Bytes are one sheet, or have one first fault. Laws alone.
#![tactic(auto)]

mod laws;

pub use laws::{
    no_first_fault_law, one_first_fault_law, one_line_fault_law, one_sheet_law, sheet_of_law,
    sheet_or_fault_law, sizes_law,
};
