//! Calls of the farm with `serve` over ports, a store and sinks in memory. The list says what the words are, what
//! happens on the three ports, which drawings are held and what fails; of each case stands how the call ended, what it
//! put, what was sent on each connection and what was not taken.
use crate::cases::Case;
use crate::plays::Player;
use farm_base::{Files, Sink};
use std::mem::replace;
use std::rt::Clock;
use std::str;
use std::sync::Wait;
use std::thread::Threads;

impl<'a, R: Threads + Wait + Clock + Sync, F: Files, O: Sink> Player<'a, R, F, O> {
    /// Runs the cases of the file `list`, and writes of each its name and what it gives; `None` where the cases cannot be
    /// read, or memory runs out.
    pub(crate) fn run_serves(&mut self, list: &str) -> Option<()> {
        let cases = self.files.read(self.alloc, list).ok()?;
        let mut case = Case::new(self.alloc);
        let played = self.play_all(cases.as_slice(), &mut case);
        drop(case);
        played
    }

    fn play_all(&mut self, cases: &[u8], case: &mut Case) -> Option<()> {
        for line in str::from_utf8(cases).ok()?.lines() {
            if line == "run" {
                self.play(case)?;
                drop(replace(case, Case::new(self.alloc)));
            } else if line.starts_with("case ") {
                self.out.put(line);
                self.out.put("\n");
            } else if !line.is_empty() && !line.starts_with('#') {
                case.take_line(self.alloc, &mut self.files, line)?;
            }
        }
        Some(())
    }
}
