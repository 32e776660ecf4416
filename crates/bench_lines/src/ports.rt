//! What ports show where they wait: a bell that is rung, and an echo that clients of other programs ask.
use crate::bench::Bench;
use crate::echo::Server;
use farm_base::{Bell, Sink};
use reactor_ports::{PortEvent, PortFault, SocketBell};
use std::rt::Clock;
use std::thread::{self, Threads};
use std::time::{Duration, Instant};

impl<'a, R: Threads + Sync + Clock, O: Sink> Bench<'a, R, O> {
    /// Rings a bell while ports wait, again and again, and puts what they heard; where rates are asked for also how long it
    /// took at most.
    pub(crate) fn bell_line<E: Server>(&mut self, ports: &mut E, bell: &SocketBell) {
        // a bell is heard from the first listen on, also where it fails
        drop(ports.listen(""));
        let mut woken = 0u32;
        let mut longest = Duration::ZERO;
        for _ in 0..10 {
            let (waited, is_woken) = ring_and_hear(self.rt, ports, bell);
            woken = woken.saturating_add(u32::from(is_woken));
            match waited {
                Some(waited) => longest = longest.max(waited),
                None => self.has_clock = false,
            }
        }
        self.out
            .put("a bell that rings 10 times while they wait: Woken ");
        self.out.put_counted(woken, " times");
        if self.work.has_rates() {
            self.out.put(", after ");
            self.out
                .put_counted(longest.as_micros(), " microseconds at most");
        }
        self.out.put("\n");
    }
}

// How long a bell was not heard, and whether it was heard as one.
fn ring_and_hear<R: Threads + Sync + Clock, E: Server>(
    rt: &R,
    ports: &mut E,
    bell: &SocketBell,
) -> (Option<Duration>, bool) {
    let (rung, (is_woken, heard)) = thread::join(rt, || ring(rt, bell), || hear(rt, ports));
    match (rung, heard) {
        (Some(rung), Some(heard)) => (Some(heard.duration_since(rung)), is_woken),
        _ => (None, is_woken),
    }
}

fn ring<R: Clock>(rt: &R, bell: &SocketBell) -> Option<Instant> {
    thread::sleep(rt, Duration::from_millis(5));
    let rung = Instant::now(rt);
    bell.ring();
    rung.ok()
}

fn hear<R: Clock, E: Server>(rt: &R, ports: &mut E) -> (bool, Option<Instant>) {
    let event = ports.hear();
    let heard = Instant::now(rt);
    (matches!(event, PortEvent::Woken), heard.ok())
}

impl<'a, R, O: Sink> Bench<'a, R, O> {
    /// Puts of each address whether it is listened at, and serves there until the program is stopped, if one is.
    pub(crate) fn serve_at<E: Server>(&mut self, echo: &mut E, addresses: &[String]) {
        let mut is_heard = false;
        for address in addresses {
            let listened = echo.listen(address.as_str());
            is_heard = is_heard || listened.is_ok();
            self.out.put(address.as_str());
            self.out.put(match listened {
                Ok(()) => ": listens\n",
                Err(PortFault::Failed) => ": fails\n",
                Err(PortFault::NoMemory) => ": wants memory\n",
            });
        }
        if is_heard {
            echo.serve();
        }
    }
}
