//! Benchmarks of filters, of turns and of the farm's tables, a bell of ports over sockets and an echo over them, which the
//! program `benches` runs. They are a library, for whose proof of all that they call only the interfaces are read.
#![tactic(auto)]

mod asked;
mod bench;
mod echo;
mod filters;
mod marks;
mod ports;
mod queues;
mod tables;
mod turns;
mod under_cell;
mod under_mutex;

use crate::asked::{Asked, read_words};
pub use bench::Bench;
pub use echo::{Echo, Server};
use farm_base::Sink;
use reactor_ports::SocketBell;
use std::rt::Clock;
use std::sync::Wait;
use std::thread::Threads;

impl<'a, R: Threads + Wait + Sync + Clock, O: Sink> Bench<'a, R, O> {
    /// Does what the words ask for, with this server for the benchmarks of ports, and answers the exit status: 1 where
    /// something failed, and 2 where the words ask for nothing that there is.
    pub fn answer<E: Server, P: Sink>(
        &mut self,
        words: &[String],
        echo: &mut E,
        bell: &SocketBell,
        err: &mut P,
    ) -> u8 {
        let (line, status) = match read_words(words) {
            Some(Asked::Serve(addresses)) => {
                self.serve_at(echo, addresses);
                ("no address is listened at, or no longer\n", 1)
            }
            Some(Asked::Lines(bench, work)) => {
                self.work = work;
                if self.lines(bench, echo, bell).is_some() && self.is_whole() {
                    return 0;
                }
                ("no memory, or the clock or the output failed\n", 1)
            }
            None => (
                "usage: benches [[filters|turns|tables|ports] [rates] | serve ADDRESS..]\n",
                2,
            ),
        };
        if err.put(line.as_bytes()).is_ok() {
            status
        } else {
            1
        }
    }

    // The lines of one benchmark, or of all: none where something failed.
    fn lines<E: Server>(
        &mut self,
        asked: asked::Bench,
        echo: &mut E,
        bell: &SocketBell,
    ) -> Option<()> {
        match asked {
            asked::Bench::Filters => self.filter_lines(),
            asked::Bench::Turns => self.turn_lines(),
            asked::Bench::Tables => self.table_lines(),
            asked::Bench::Ports => {
                self.bell_line(echo, bell);
                Some(())
            }
            asked::Bench::All => {
                self.filter_lines()?;
                self.turn_lines()?;
                self.table_lines()?;
                self.bell_line(echo, bell);
                Some(())
            }
        }
    }
}
