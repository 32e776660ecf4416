//! Filter expressions: read from a text by their grammar, and evaluated.
//!
//! What is proved: `parse`: the tree that the grammar gives the text, or its first fault with place and kind, both ways
//! (`FilterOf`, `FaultOf`), but for want of memory; each text has one list of tokens, which spell one filter at most
//! (`law_one_tree`), and one tree or one first fault, never both (`law_one_answer`); the function that reads by tokens
//! gives exactly these (`law_says`). `eval` and `holds` equal the value by cases; so does a `FilterTable`, which is asked of
//! one feature after another and looks up each name once for a feature.
#![tactic(auto)]

mod faults;
mod lexer;
mod marks;
mod names;
mod numbered;
mod parser;
mod reader;
mod table;
mod tokens;
mod value;
mod walk;

pub use faults::FilterFault;
pub use marks::asked_marks;
pub use plain_filters::{CompareSign, Expr, ProductPart, ProductSign, SumPart, SumSign};
pub use reader::{law_one_answer, law_one_tree, law_says, parse};
pub use table::FilterTable;
pub use value::ValueRef;
pub use walk::{eval, holds};
