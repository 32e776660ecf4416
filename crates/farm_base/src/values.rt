//! Attribute values of features, as filters see them.
use crate::texts::Text;

/// The value of an attribute: null, a truth value, a whole number or a text.
#[derive(Drop)]
pub enum Value {
    Null,
    Truth(bool),
    Whole(i64),
    Text(Text),
}

/// An attribute of a feature: its name and its value.
#[derive(Drop)]
pub struct Attr {
    pub name: Text,
    pub value: Value,
}
