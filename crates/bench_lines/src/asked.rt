//! What the words of the command line ask for.

/// Which benchmark is asked for.
#[derive(Clone, Copy)]
pub(crate) enum Bench {
    All,
    Filters,
    Turns,
    Tables,
    Ports,
}

/// Whether rates are asked for too.
#[derive(Clone, Copy)]
pub(crate) enum Work {
    Counts,
    Rates,
}

impl Work {
    /// Whether rates are asked for.
    pub(crate) fn has_rates(self) -> bool {
        matches!(self, Work::Rates)
    }
}

/// Addresses to be served at, or the lines of a benchmark.
#[derive(Clone, Copy)]
pub(crate) enum Asked<'a> {
    Serve(&'a [String]),
    Lines(Bench, Work),
}

/// Without words all benchmarks are asked for, with `rates` alone their rates too; else the first word is one of them, and
/// `rates` may follow, or it is `serve`, and addresses follow.
pub(crate) fn read_words(words: &[String]) -> Option<Asked<'_>> {
    match words {
        [] => Some(Asked::Lines(Bench::All, Work::Counts)),
        [first, rest @ ..] => behind(first.as_str(), rest),
    }
}

fn behind<'a>(first: &str, rest: &'a [String]) -> Option<Asked<'a>> {
    if first == "serve" {
        return Some(Asked::Serve(rest));
    }
    match rest {
        [] if first == "rates" => Some(Asked::Lines(Bench::All, Work::Rates)),
        [] => lines_of(first, Work::Counts),
        [second] if second.as_str() == "rates" => lines_of(first, Work::Rates),
        _ => None,
    }
}

fn lines_of<'a>(word: &str, work: Work) -> Option<Asked<'a>> {
    for (name, bench) in [
        ("filters", Bench::Filters),
        ("turns", Bench::Turns),
        ("tables", Bench::Tables),
        ("ports", Bench::Ports),
    ] {
        if word == name {
            return Some(Asked::Lines(bench, work));
        }
    }
    None
}
