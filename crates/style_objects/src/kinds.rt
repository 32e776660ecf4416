//! The kinds of values in a style text, and each at its key.
ghost use Rattle.std.specs.Prelude.{◌≡◌, ◌≤◌, ◌&&◌, ◌^◌, not, false, IsTrue, IfOk, IfSome, length, Some, None, option_map, is_some};
ghost use Rattle.serde_json.specs.Find.{get};
ghost use Rattle.serde_json.specs.View.{view, items_view};
ghost use Rattle.plain_filters.specs.Filters.{tree_of};
ghost use Rattle.plain_drawing.specs.Limits.{most_rasters};
ghost use Rattle.plain_drawing.specs.Styles.{is_text_to, is_width, is_opacity};
ghost use Rattle.reading.specs.Steps.{seen, Gives};
ghost use Rattle.reading.specs.Values.{needed, or_value};
ghost use Rattle.plain_shapes.specs.declared.shapes.LineCap.TheVariants as cap;
ghost use Rattle.plain_drawing.specs.declared.style.FilterMode.TheVariants as mode;
ghost use Rattle.style_objects.specs.TextReadings.{text_reading};
ghost use Rattle.style_objects.specs.Kinds as spec;
ghost use Rattle.style_objects.specs.inner.Parts as parts;
ghost use Rattle.style_objects.specs.declared.fault.StyleFault.TheVariants as fault;

use crate::fault::{At, StyleFault};
use farm_base::{NoMemory, Text};
use filter_expr::{Expr, FilterFault, parse};
use paint_texts::{Colour, hundredths, thousandths};
use plain_drawing::FilterMode;
use plain_shapes::{LineCap, MOST_WIDTH};
use reading::{text, whole_number};
use serde_json::Value;
use std::alloc::Global;

fn a_colour(value: &Value, at: At) -> Result<Colour, StyleFault>
    ensures { result ≡ spec.in_grammar text_reading.colour at (view value.now) }
{
    paint_texts::colour(text(value, StyleFault::Shape(at))?).ok_or(StyleFault::Text(at))
}

pub fn colour_or(object: &Value, key: &str, absent: Colour, at: At) -> Result<Colour, StyleFault>
    ensures { result
        ≡ or_value absent (spec.in_grammar text_reading.colour at) (get key.now (view object.now)) }
{
    match object.get(key) {
        Some(value) => a_colour(value, at),
        None => Ok(absent),
    }
}

pub fn colour_at(object: &Value, key: &str, at: At) -> Result<Colour, StyleFault>
    ensures { result ≡ needed (fault.Shape at) (spec.in_grammar text_reading.colour at)
        (get key.now (view object.now)) }
{
    match object.get(key) {
        Some(value) => a_colour(value, at),
        None => Err(StyleFault::Shape(at)),
    }
}

fn a_scale(value: &Value, at: At) -> Result<u64, StyleFault>
    ensures { result ≡ spec.in_grammar text_reading.hundredths at (view value.now) }
{
    hundredths(text(value, StyleFault::Shape(at))?).ok_or(StyleFault::Text(at))
}

/// The least scale denominator of a rule or layer, 0 where it is absent.
pub fn scale_or_zero(object: &Value, key: &str, at: At) -> Result<u64, StyleFault>
    ensures { result
        ≡ or_value 0 (spec.in_grammar text_reading.hundredths at) (get key.now (view object.now)) }
{
    match object.get(key) {
        Some(value) => a_scale(value, at),
        None => Ok(0),
    }
}

/// The greatest scale denominator of a rule or layer, none where it is absent.
#[tactic(auto, unfolding(crate::specs::Kinds::a_bound))]
pub fn bound_or_none(object: &Value, key: &str, at: At) -> Result<Option<u64>, StyleFault>
    ensures { result
        ≡ or_value None (spec.a_bound text_reading at) (get key.now (view object.now)) }
{
    match object.get(key) {
        Some(value) => Ok(Some(a_scale(value, at)?)),
        None => Ok(None),
    }
}

/// An opacity in thousandths, 1,000 where it is absent.
pub fn opacity_or_full(object: &Value, key: &str, at: At) -> Result<u32, StyleFault>
    ensures value { result ≡ or_value 1000 (spec.in_grammar text_reading.thousandths at)
        (get key.now (view object.now)) }
    ensures fits { IfOk result (λ n. IsTrue (is_opacity n)) }
{
    match object.get(key) {
        Some(value) => thousandths(text(value, StyleFault::Shape(at))?).ok_or(StyleFault::Text(at)),
        None => Ok(1000),
    }
}

#[tactic(auto, unfolding(crate::specs::Kinds::a_width))]
fn a_width(value: &Value, at: At) -> Result<u64, StyleFault>
    ensures value { result ≡ spec.a_width text_reading at (view value.now) }
    ensures fits { IfOk result (λ n. IsTrue (is_width n)) }
{
    let n = a_scale(value, at)?;
    if 1 <= n && n <= 100 * MOST_WIDTH {
        Ok(n)
    } else {
        Err(StyleFault::Range(at))
    }
}

/// A width in hundredths of a pixel.
pub fn width_or(object: &Value, key: &str, absent: u64, at: At) -> Result<u64, StyleFault>
    requires { IsTrue (is_width absent) }
    ensures value { result
        ≡ or_value absent (spec.a_width text_reading at) (get key.now (view object.now)) }
    ensures fits { IfOk result (λ n. IsTrue (is_width n)) }
{
    match object.get(key) {
        Some(value) => a_width(value, at),
        None => Ok(absent),
    }
}

pub fn width_at(object: &Value, key: &str, at: At) -> Result<u64, StyleFault>
    ensures value { result
        ≡ needed (fault.Shape at) (spec.a_width text_reading at) (get key.now (view object.now)) }
    ensures fits { IfOk result (λ n. IsTrue (is_width n)) }
{
    match object.get(key) {
        Some(value) => a_width(value, at),
        None => Err(StyleFault::Shape(at)),
    }
}

#[tactic(auto, unfolding(crate::specs::Kinds::a_text_to))]
pub fn a_text_to(value: &Value, limit: usize, at: At) -> Result<&str, StyleFault>
    ensures value { seen (λ s. s.now) result ≡ spec.a_text_to limit at (view value.now) }
    ensures fits { IfOk result (λ s. IsTrue (is_text_to limit s.now)) }
{
    let text = text(value, StyleFault::Shape(at))?;
    if 1 <= text.len() && text.len() <= limit {
        Ok(text)
    } else {
        Err(StyleFault::Text(at))
    }
}

/// A text of 1 to so many bytes.
pub fn text_to<'a>(
    object: &'a Value,
    key: &str,
    limit: usize,
    at: At,
) -> Result<&'a str, StyleFault>
    ensures value { seen (λ s. s.now) result
        ≡ needed (fault.Shape at) (spec.a_text_to limit at) (get key.now (view object.entry.now)) }
    ensures fits { IfOk result (λ s. IsTrue (is_text_to limit s.now)) }
{
    match object.get(key) {
        Some(value) => a_text_to(value, limit, at),
        None => Err(StyleFault::Shape(at)),
    }
}

/// Copies of two texts.
pub fn two_texts(alloc: Global, one: &str, other: &str) -> Result<(Text, Text), NoMemory>
    ensures { IfOk result (λ texts. (texts.0 ≡ one.now) × (texts.1 ≡ other.now)) }
{
    let one = Text::of(alloc, one)?;
    let Ok(other) = Text::of(alloc, other) else {
        drop(one);
        return Err(NoMemory);
    };
    Ok((one, other))
}

/// A text without effect, which may be absent.
#[tactic(auto, unfolding(crate::specs::Kinds::any_text))]
pub fn any_text_or_none(object: &Value, key: &str, at: At) -> Result<(), StyleFault>
    ensures { result ≡ or_value tt (spec.any_text at) (get key.now (view object.now)) }
{
    match object.get(key) {
        Some(value) => {
            let _text = text(value, StyleFault::Shape(at))?;
            Ok(())
        }
        None => Ok(()),
    }
}

fn mode_of(text: &str) -> Option<FilterMode>
    ensures { result ≡ spec.mode_of text.now }
{
    match text {
        "all" => Some(FilterMode::All),
        "first" => Some(FilterMode::First),
        _ => None,
    }
}

/// A filter mode, `all` where it is absent.
pub fn mode_or_all(object: &Value, key: &str, at: At) -> Result<FilterMode, StyleFault>
    ensures { result
        ≡ or_value mode.All (spec.in_grammar spec.mode_of at) (get key.now (view object.now)) }
{
    match object.get(key) {
        Some(value) => mode_of(text(value, StyleFault::Shape(at))?).ok_or(StyleFault::Text(at)),
        None => Ok(FilterMode::All),
    }
}

fn cap_of(text: &str) -> Option<LineCap>
    ensures { result ≡ spec.cap_of text.now }
{
    match text {
        "butt" => Some(LineCap::Butt),
        "round" => Some(LineCap::Round),
        "square" => Some(LineCap::Square),
        _ => None,
    }
}

/// A line cap, `butt` where it is absent.
pub fn cap_or_butt(object: &Value, key: &str, at: At) -> Result<LineCap, StyleFault>
    ensures { result
        ≡ or_value cap.Butt (spec.in_grammar spec.cap_of at) (get key.now (view object.now)) }
{
    match object.get(key) {
        Some(value) => cap_of(text(value, StyleFault::Shape(at))?).ok_or(StyleFault::Text(at)),
        None => Ok(LineCap::Butt),
    }
}

/// A whole number of a raster, up to `2^30`.
#[tactic(auto, unfolding(crate::specs::Kinds::a_number))]
pub fn number_at(object: &Value, key: &str, low: u32, at: At) -> Result<u32, StyleFault>
    ensures value { result
        ≡ needed (fault.Shape at) (spec.a_number low at) (get key.now (view object.now)) }
    ensures low { IfOk result (λ n. low ≤ n) }
    ensures high { IfOk result (λ n. n ≤ 2 ^ 30) }
{
    let Some(value) = object.get(key) else {
        return Err(StyleFault::Shape(at));
    };
    let n = whole_number(
        value,
        StyleFault::Shape(at),
        StyleFault::Range(at),
        u64::from(low),
        1 << 30,
    )?;
    Ok(n as u32)
}

/// A filter, which may be absent.
#[tactic(auto, unfolding(crate::specs::Kinds::a_filter))]
pub fn filter_or_none(
    alloc: Global,
    object: &Value,
    key: &str,
    at: At,
) -> Result<Option<Expr>, StyleFault>
    ensures { Gives fault.NoMemory (option_map tree_of)
        (or_value None (spec.a_filter text_reading at) (get key.now (view object.now))) result }
{
    let Some(value) = object.get(key) else {
        return Ok(None);
    };
    match parse(alloc, text(value, StyleFault::Shape(at))?) {
        Ok(expr) => Ok(Some(expr)),
        Err(FilterFault::NoMemory) => Err(StyleFault::NoMemory),
        Err(refused) => Err(StyleFault::Filter(at, refused)),
    }
}

fn is_true(value: &Value) -> bool
    ensures { result ≡ spec.is_true (view value.now) }
{
    value.as_bool().unwrap_or(false)
}

/// Whether a rule is an ElseFilter rule; it has no filter then.
#[tactic(auto, unfolding(crate::specs::Kinds::an_else))]
pub fn else_or_false(
    object: &Value,
    key: &str,
    has_filter: bool,
    at: At,
) -> Result<bool, StyleFault>
    ensures value { result
        ≡ or_value false (spec.an_else has_filter at) (get key.now (view object.now)) }
    ensures one { IfOk result (λ b. IsTrue (not (b && has_filter))) }
{
    let Some(value) = object.get(key) else {
        return Ok(false);
    };
    if is_true(value) && !has_filter {
        Ok(true)
    } else {
        Err(StyleFault::Shape(at))
    }
}

/// The items of the list of rasters, which may be absent and was found within its limit unless the value at
/// its key is no list.
pub fn list_or_none<'a>(
    found: Option<&'a [Value]>,
    value: Option<&'a Value>,
    at: At,
) -> Result<&'a [Value], StyleFault>
    requires { IfSome found (λ vs. length vs.now ≤ most_rasters) }
    ensures short { IfOk result (λ vs. length vs.now ≤ most_rasters) }
    ensures value { seen (λ vs. items_view vs.now) result ≡ parts.list_or_none at (option_map
        (λ vs. items_view vs.now) found.entry) (option_map (λ v. view v.now) value.entry) }
{
    match found {
        Some(items) => Ok(items),
        None => match value {
            Some(_) => Err(StyleFault::Shape(at)),
            None => Ok(&[]),
        },
    }
}
