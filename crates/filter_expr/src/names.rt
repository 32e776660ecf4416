//! The names of filters, and the values that they have for a feature.
ghost use Rattle.std.specs.Prelude.{◌≡◌, IfOk, [], map, length};
ghost use Rattle.plain_filters.specs.Values.{attribute, compares};
ghost use Rattle.plain_filters.specs.Filters.{tree_value};
ghost use Rattle.filter_expr.specs.Numbered.{name_at};
ghost use Rattle.filter_expr.specs.inner.Shown.{plain};

use crate::value::{ValueRef, attribute, compares_there};
use farm_base::{Attr, NoMemory};
use plain_filters::{CompareSign, Expr};
use std::alloc::Global;
use std::marker::Model;

/// The most names that are numbered: others are looked up where they are mentioned.
const MOST_NAMES: usize = 64;

// Lists the name, if there is room and it is not listed.
fn list_name<'a>(name: &'a str, names: &mut Vec<&'a str>) -> Result<(), NoMemory> {
    if names.len() >= MOST_NAMES || names.iter().any(|known| *known == name) {
        return Ok(());
    }
    names.push(name)?;
    Ok(())
}

// Lists the names that the filter mentions, but in sums and products: those which are listed are found soonest, and
// no value hangs on which they are.
#[cycle(naming)]
pub(crate) fn list_names<'a>(e: &'a Expr, names: &mut Vec<&'a str>) -> Result<(), NoMemory> {
    match e {
        Expr::Or(parts) => list_all_names(parts, names),
        Expr::And(parts) => list_all_names(parts, names),
        Expr::Not(part) => list_names(part, names),
        Expr::Compare(a, _, b) => {
            list_names(a, names)?;
            list_names(b, names)
        }
        Expr::Name(name) => list_name(name.as_str(), names),
        _ => Ok(()),
    }
}

#[cycle(naming)]
fn list_all_names<'a>(parts: &'a [Expr], names: &mut Vec<&'a str>) -> Result<(), NoMemory> {
    for part in parts {
        list_names(part, names)?;
    }
    Ok(())
}

/// Names, and the values that they have for the attributes of a feature.
#[derive(Drop)]
pub struct NamedValues<'a> {
    names: Vec<&'a str>,
    values: Vec<ValueRef<'a>>,
    attrs: &'a [Attr],
}

impl<'a> Model for NamedValues<'a> {
    ghost use Rattle.std.specs.Prelude.{◌≡◌, map};
    ghost use Rattle.plain_filters.specs.Values.{attribute};
    ghost use Rattle.filter_expr.specs.Looked.{Looked};
    ghost use Rattle.filter_expr.specs.inner.Shown.{plain};

    ghost Value = { Looked };

    ghost view = { λ n. record { names = map (λ m. m.now) n.names.items; attrs = n.attrs.now } };

    ghost invariant = { λ n. map plain n.values.items
        ≡ map (λ m. attribute m.now n.attrs.now) n.names.items };
}

fn values_of<'a>(
    alloc: Global,
    names: &[&str],
    attrs: &'a [Attr],
) -> Result<Vec<ValueRef<'a>>, NoMemory>
    ensures { IfOk result (λ v. map plain v.items ≡ map (λ m. attribute m.now attrs.now) names.now) }
{
    let mut values = Vec::new(alloc);
    for name in names {
        values.push(attribute(name, attrs))?;
    }
    Ok(values)
}

#[tactic(auto, using(crate::proofs::Numbers::one_looked))]
fn look_up<'a>(names: &[&str], attrs: &'a [Attr], values: &mut [ValueRef<'a>])
    requires { length values.old ≡ length names.now }
    ensures { map plain values.new ≡ map (λ m. attribute m.now attrs.now) names.now }
{
    for number in 0..names.len() {
        values[number] = attribute(names[number], attrs);
    }
}

impl<'a> NamedValues<'a> {
    /// These names, where there are no attributes.
    pub fn of(alloc: Global, names: Vec<&'a str>) -> Result<NamedValues<'a>, NoMemory>
        ensures { IfOk result (λ n. n ≡ record { names = map (λ m. m.now) names.entry.items; attrs = [] }) }
    {
        let attrs: &[Attr] = &[];
        let values = values_of(alloc, names.as_slice(), attrs)?;
        Ok(NamedValues {
            names,
            values,
            attrs,
        })
    }

    /// Looks the names up among these attributes.
    pub fn look(&mut self, attrs: &'a [Attr])
        ensures { self.new ≡ record { names = self.old.names; attrs = attrs.now } }
    {
        self.attrs = attrs;
        look_up(self.names.as_slice(), attrs, self.values.as_mut_slice());
    }

    /// The names.
    pub fn names(&self) -> &[&'a str]
        ensures { map (λ m. m.now) result.now ≡ self.now.names }
    {
        self.names.as_slice()
    }

    /// The attributes.
    pub fn attrs(&self) -> &'a [Attr]
        ensures { result.now ≡ self.now.attrs }
    {
        self.attrs
    }

    /// The value of the name of this number; null where there is none.
    #[inline]
    #[tactic(auto, using(crate::proofs::Numbers::value_there, crate::proofs::Numbers::value_past))]
    pub fn value(&self, number: usize) -> ValueRef<'a>
        ensures { plain result ≡ tree_value self.now.attrs (name_at self.now.names number) }
    {
        if number < self.values.len() {
            self.values[number]
        } else {
            ValueRef::Null
        }
    }

    /// What the sign tests of the value of the name of this number and another one.
    #[inline]
    pub fn compares(&self, number: usize, sign: CompareSign, w: &ValueRef<'_>) -> bool
        ensures { result ≡ compares sign
            (tree_value self.now.attrs (name_at self.now.names number)) (plain w.now) }
    {
        if number < self.values.len() {
            compares_there(sign, &self.values[number], w)
        } else {
            compares_there(sign, &ValueRef::Null, w)
        }
    }
}
