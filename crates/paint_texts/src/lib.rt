//! The texts of paint in a style: colours and decimal numbers. No call takes memory.
//!
//! What is proved: `colour`, `hundredths`, `thousandths` equal their definitions, and each answers exactly where the
//! text is in its grammar: a hash with three or six digits, `rgb(` with three numbers, or one of sixteen names
//! (`IsColour`); a decimal number (`IsDecimal`).
#![tactic(auto)]

mod colours;
mod decimals;
mod digits;

pub use colours::colour;
pub use decimals::{hundredths, thousandths};
pub use plain_shapes::Colour;
