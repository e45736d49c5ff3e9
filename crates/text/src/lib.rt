// Text that programs read and write: hexadecimal digits, decimal numbers, lines.
#![tactic(auto)]

pub mod decimal;
pub mod hex;
pub mod line;
