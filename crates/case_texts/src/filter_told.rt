//! What filter texts are read as, in lines: trees, their values, and what is written of them.
use data_versions::Snapshot;
use farm_base::Attr;
use filter_expr::{
    CompareSign, Expr, FilterFault, ProductSign, SumSign, ValueRef, eval, holds, parse,
};
use filter_texts::write;
use noted_puts::Letters;
use std::alloc::Global;

fn say(out: &mut Letters, e: &Expr) {
    match e {
        Expr::Or(parts) => {
            out.put("(or");
            for part in parts {
                out.put(" ");
                say(out, part);
            }
            out.put(")");
        }
        Expr::And(parts) => {
            out.put("(and");
            for part in parts {
                out.put(" ");
                say(out, part);
            }
            out.put(")");
        }
        Expr::Not(part) => {
            out.put("(not ");
            say(out, part);
            out.put(")");
        }
        Expr::Compare(a, sign, b) => {
            out.put(compare_text(*sign));
            say(out, a);
            out.put(" ");
            say(out, b);
            out.put(")");
        }
        Expr::Sum(first, parts) => {
            out.put("(sum ");
            say(out, first);
            for later in parts {
                out.put(sum_text(later.sign));
                say(out, &later.part);
            }
            out.put(")");
        }
        Expr::Product(first, parts) => {
            out.put("(product ");
            say(out, first);
            for later in parts {
                out.put(product_text(later.sign));
                say(out, &later.part);
            }
            out.put(")");
        }
        Expr::Negate(part) => {
            out.put("(neg ");
            say(out, part);
            out.put(")");
        }
        leaf => say_leaf(out, leaf),
    }
}

fn say_leaf(out: &mut Letters, leaf: &Expr) {
    match leaf {
        Expr::Name(name) => {
            out.put("[");
            out.put(name.as_str());
            out.put("]");
        }
        Expr::Text(text) => {
            out.put("<");
            out.put(text.as_str());
            out.put(">");
        }
        Expr::Number(n) => out.put_number(*n),
        Expr::Truth(true) => out.put("true"),
        Expr::Truth(false) => out.put("false"),
        _ => out.put("null"),
    }
}

fn sum_text(sign: SumSign) -> &'static str {
    match sign {
        SumSign::Plus => " + ",
        SumSign::Minus => " - ",
    }
}

fn product_text(sign: ProductSign) -> &'static str {
    match sign {
        ProductSign::Times => " * ",
        ProductSign::Divide => " / ",
        ProductSign::Rest => " % ",
    }
}

fn compare_text(sign: CompareSign) -> &'static str {
    match sign {
        CompareSign::Equal => "(= ",
        CompareSign::Unequal => "(!= ",
        CompareSign::Less => "(< ",
        CompareSign::LessEqual => "(<= ",
        CompareSign::Greater => "(> ",
        CompareSign::GreaterEqual => "(>= ",
    }
}

fn tell_refusal(told: &mut Letters, fault: FilterFault) {
    match fault {
        FilterFault::Bad(at) => told.put_with("bad", at),
        FilterFault::NumberRange(at) => told.put_with("range", at),
        FilterFault::TooDeep(at) => told.put_with("deep", at),
        FilterFault::NoMemory => told.cut(),
    }
}

fn tell_tree(alloc: Global, told: &mut Letters, text: &str) {
    match parse(alloc, text) {
        Ok(e) => {
            say(told, &e);
            drop(e);
        }
        Err(fault) => tell_refusal(told, fault),
    }
}

// What is written of the filter, or the tree of that text.
fn tell_written(alloc: Global, told: &mut Letters, e: &Expr, is_read_again: bool) {
    match write(alloc, e) {
        Ok(text) if is_read_again => tell_tree(alloc, told, text.as_str()),
        Ok(text) => told.put(text.as_str()),
        Err(_) => told.cut(),
    }
}

fn tell_value(told: &mut Letters, e: &Expr, attrs: &[Attr]) {
    match eval(e, attrs) {
        ValueRef::Null => told.put("null"),
        ValueRef::Truth(true) => told.put("true"),
        ValueRef::Truth(false) => told.put("false"),
        ValueRef::Whole(n) => told.put_number(n),
        ValueRef::Text(text) => {
            told.put("'");
            told.put(text);
            told.put("'");
        }
    }
    told.put(if holds(e, attrs) {
        "\nholds"
    } else {
        "\ndoes not hold"
    });
}

// The value of the first feature of the land.
fn tell_value_in(told: &mut Letters, e: &Expr, old: &Snapshot) {
    let Some(land) = old.layer("land") else {
        told.put("no layer");
        return;
    };
    match land.get(0) {
        Some(feature) => tell_value(told, e, feature.attrs()),
        None => told.put("no feature"),
    }
}

fn tell_expr(alloc: Global, told: &mut Letters, kind: &str, e: &Expr, old: &Snapshot) {
    match kind {
        "filter" => say(told, e),
        "written" => tell_written(alloc, told, e, false),
        "again" => tell_written(alloc, told, e, true),
        "value" => tell_value_in(told, e, old),
        _ => told.put("no such kind"),
    }
}

/// What a filter's text is told by: its tree, what is written of it, the tree of that, or its value, and whether it
/// holds; or its fault.
pub(crate) fn tell_filter(
    alloc: Global,
    told: &mut Letters,
    kind: &str,
    text: &str,
    old: &Snapshot,
) {
    match parse(alloc, text) {
        Ok(e) => {
            tell_expr(alloc, told, kind, &e, old);
            drop(e);
        }
        Err(fault) => tell_refusal(told, fault),
    }
}
