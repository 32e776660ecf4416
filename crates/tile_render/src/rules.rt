//! Which rules of a style that are at scale draw on an item.
ghost use Rattle.std.specs.Prelude.{◌≡◌, ◌<◌, map, length, get_or, position, None};
ghost use Rattle.tile_render.specs.inner.Chosen.{is_chosen, takes};

use filter_expr::FilterTable;
use plain_drawing::Rule;

/// Which rules at scale are drawn: the Filter rules whose filter holds, or the ElseFilter rules.
#[derive(Clone, Copy)]
pub(crate) enum Choice {
    Matching,
    Fallback,
}

// Whether the rule is a Filter rule whose filter, that at this place, holds.
#[tactic(auto, using(crate::proofs::Tables::held))]
fn takes(table: &FilterTable<'_>, place: usize, rule: &Rule) -> bool
    requires place { place < length table.now.filters }
    requires filter { get_or table.now.filters place None ≡ rule.now.filter }
    ensures { result ≡ takes table.now.attrs rule.now }
{
    !rule.else_filter && table.passes(place)
}

/// Whether the rule, whose filter is that at this place, is among those that are drawn.
pub(crate) fn is_chosen(choice: Choice, table: &FilterTable<'_>, place: usize, rule: &Rule) -> bool
    requires place { place < length table.now.filters }
    requires filter { get_or table.now.filters place None ≡ rule.now.filter }
    ensures { result ≡ is_chosen choice table.now.attrs rule.now }
{
    match choice {
        Choice::Matching => takes(table, place, rule),
        Choice::Fallback => rule.else_filter,
    }
}

/// The place of the first Filter rule among them whose filter holds.
#[tactic(auto, using(crate::proofs::Tables::first_place, crate::proofs::Tables::first_filter))]
pub(crate) fn first_match(rules: &[&Rule], table: &FilterTable<'_>) -> Option<usize>
    requires { table.now.filters ≡ map (λ r. r.now.filter) rules.now }
    ensures { result ≡ position (takes table.now.attrs) (map (λ r. r.now) rules.now) }
{
    for place in 0..rules.len() {
        if takes(table, place, rules[place]) {
            return Some(place);
        }
    }
    None
}
