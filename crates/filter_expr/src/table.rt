//! Filters that are asked of one feature after another.
ghost use Rattle.std.specs.Prelude.{◌≡◌, ◌<◌, IfOk, [], map, length, get_or, option_map, None};
ghost use Rattle.plain_filters.specs.Filters.{tree_of};
ghost use Rattle.plain_filters.specs.Values.{truth};
ghost use Rattle.filter_expr.specs.Numbered.{stands_for, numbered_value};
ghost use Rattle.filter_expr.specs.Looked.{passes};

use crate::names::{NamedValues, list_names};
use crate::numbered::{NumberedFilter, compared, numbered, numbered_holds};
use farm_base::{Attr, NoMemory};
use plain_filters::Expr;
use std::alloc::Global;
use std::marker::Model;

/// Filters, none of which everything passes, that are asked of one feature after another: the names in them are looked
/// up once for each feature, and not at each mention.
#[derive(Drop)]
pub struct FilterTable<'a> {
    named: NamedValues<'a>,
    filters: Vec<Option<NumberedFilter<'a>>>,
}

impl<'a> Model for FilterTable<'a> {
    ghost use Rattle.std.specs.Prelude.{map, option_map};
    ghost use Rattle.plain_filters.specs.inner.FilterCodes.{filter_code};
    ghost use Rattle.std.specs.Coded.{codes};
    ghost use Rattle.filter_expr.specs.Looked.{Asked};
    ghost use Rattle.filter_expr.specs.Numbered.{stands_for};

    ghost Value = { Asked };

    ghost coded = { Prim.hlevel (codes, filter_code) };

    ghost view = { λ t. record {
      filters = map (option_map (stands_for t.named.names)) t.filters.items;
      attrs = t.named.attrs;
    } };
}

// The names that the filters mention.
fn names_of<'a>(alloc: Global, filters: &[&'a Option<Expr>]) -> Result<Vec<&'a str>, NoMemory> {
    let mut names = Vec::new(alloc);
    for filter in filters {
        if let Some(filter) = *filter {
            list_names(filter, &mut names)?;
        }
    }
    Ok(names)
}

fn numbered_filter<'a>(
    alloc: Global,
    filter: &'a Option<Expr>,
    names: &[&str],
) -> Result<Option<NumberedFilter<'a>>, NoMemory>
    ensures { IfOk result (λ f. option_map (stands_for (map (λ m. m.now) names.now)) f
        ≡ option_map tree_of filter.now) }
{
    match filter {
        Some(filter) => Ok(Some(numbered(alloc, filter, names)?)),
        None => Ok(None),
    }
}

fn numbered_filters<'a>(
    alloc: Global,
    filters: &[&'a Option<Expr>],
    names: &[&str],
) -> Result<Vec<Option<NumberedFilter<'a>>>, NoMemory>
    ensures { IfOk result (λ v. map (option_map (stands_for (map (λ m. m.now) names.now))) v.items
        ≡ map (λ f. option_map tree_of f.now) filters.now) }
{
    let mut made = Vec::new(alloc);
    for filter in filters {
        made.push(numbered_filter(alloc, filter, names)?)?;
    }
    Ok(made)
}

// Whether the filter holds, where names have these values. One that compares is asked without a call.
#[inline]
fn filter_holds<'a>(filter: &NumberedFilter<'a>, named: &NamedValues<'a>) -> bool
    ensures { result ≡ truth (numbered_value named.now filter.now) }
{
    match compared(filter, named) {
        Some(holds) => holds,
        None => numbered_holds(filter, named),
    }
}

impl<'a> FilterTable<'a> {
    /// These filters, asked where there are no attributes.
    pub fn of(alloc: Global, filters: &[&'a Option<Expr>]) -> Result<FilterTable<'a>, NoMemory>
        ensures { IfOk result (λ t. t ≡ record {
          filters = map (λ f. option_map tree_of f.now) filters.now;
          attrs = [];
        }) }
    {
        let names = names_of(alloc, filters)?;
        let made = numbered_filters(alloc, filters, names.as_slice())?;
        let named = NamedValues::of(alloc, names)?;
        Ok(FilterTable {
            named,
            filters: made,
        })
    }

    /// The filters are asked of these attributes from now on.
    pub fn look(&mut self, attrs: &'a [Attr])
        ensures { self.new ≡ record { filters = self.old.filters; attrs = attrs.now } }
    {
        self.named.look(attrs);
    }

    /// Whether the filter at this place passes what has the attributes.
    pub fn passes(&self, place: usize) -> bool
        requires { place < length self.now.filters }
        ensures { result ≡ passes self.now.attrs (get_or self.now.filters place None) }
    {
        match &self.filters[place] {
            Some(filter) => filter_holds(filter, &self.named),
            None => true,
        }
    }
}
