//! Filters: the tree that a filter text is read as, and its value for the attributes of a feature.
//!
//! It needs no world and no shapes. The crates of filters stand on it (`filter_expr`, `filter_texts`), and
//! styles, whose rules have filters.
//!
//! What is proved: definitions alone.
#![tactic(auto)]

mod expr;

pub use expr::{CompareSign, Expr, ProductPart, ProductSign, SumPart, SumSign};
