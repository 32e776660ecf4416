//! A filter of a million bytes, read and written again.
use crate::bench::{Bench, rate_of};
use farm_base::Sink;
use filter_expr::{Expr, parse};
use filter_texts::write;
use noted_puts::Letters;
use std::alloc::Global;
use std::rt::Clock;
use std::time::Duration;

fn long_text(alloc: Global) -> Option<String> {
    let mut text = Letters::new(alloc);
    text.put("[a] = 1");
    for _ in 0..90_909 {
        text.put(" or [a] = 1");
    }
    text.into_text()
}

fn or_parts(e: &Expr) -> usize {
    match e {
        Expr::Or(parts) => parts.len(),
        _ => 0,
    }
}

impl<'a, R: Clock, O: Sink> Bench<'a, R, O> {
    /// The lines of reading and of writing the filter: none where memory was wanting.
    pub(crate) fn filter_lines(&mut self) -> Option<()> {
        let text = long_text(self.alloc)?;
        self.read_lines(text.as_str())
    }

    fn read_lines(&mut self, text: &str) -> Option<()> {
        let start = self.start();
        let Ok(filter) = parse(self.alloc, text) else {
            return None;
        };
        let took = self.took(start);
        self.out.put("read: ");
        self.out.put_counted(text.len(), " bytes, ");
        self.out.put_counted(or_parts(&filter), " parts\n");
        self.put_bytes_rate(text.len(), took);
        let told = self.written_lines(&filter);
        drop(filter);
        told
    }

    fn written_lines(&mut self, filter: &Expr) -> Option<()> {
        let start = self.start();
        let text = write(self.alloc, filter).ok()?;
        let took = self.took(start);
        let bytes = text.as_str().len();
        self.out.put("written: ");
        self.out.put_counted(bytes, " bytes\n");
        self.put_bytes_rate(bytes, took);
        Some(())
    }

    fn put_bytes_rate(&mut self, bytes: usize, took: Duration) {
        if self.work.has_rates() {
            let rate = rate_of(bytes as u64, took);
            self.out.put_counted(rate, " bytes a second\n");
        }
    }
}
