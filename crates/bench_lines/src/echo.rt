//! A server that echoes what it hears. Two pieces are no echo: `heard?` is answered with a line of what was heard since the
//! last such piece, `large?` with one large answer.
use noted_puts::Letters;
use reactor_ports::{Outbox, PortEvent, PortFault, Ports, SocketPorts};
use std::alloc::Global;
use std::net::Net;
use std::rt::Files;

/// How many bytes the large answer has.
const LARGE: u64 = 10_000_000;

/// After so many bytes it begins anew, so that each byte tells its place in it.
const PERIOD: usize = 251;

/// How many of its bytes are offered at once.
const PART: usize = 1 << 18;

/// What was heard.
#[derive(Clone, Copy)]
struct Heard {
    opened: u64,
    ended: u64,
    lost: u64,
    // the length of the longest piece
    longest: usize,
}

impl Heard {
    const NOTHING: Heard = Heard {
        opened: 0,
        ended: 0,
        lost: 0,
        longest: 0,
    };

    fn line(self, alloc: Global) -> Option<String> {
        let mut line = Letters::new(alloc);
        line.put_with("opened", self.opened);
        line.put_with(", ended", self.ended);
        line.put_with(", lost", self.lost);
        line.put_with(", longest piece", self.longest);
        line.put("\n");
        line.into_text()
    }
}

/// What is served.
pub trait Server {
    /// Listens at the address from now on.
    fn listen(&mut self, address: &str) -> Result<(), PortFault>;

    /// What its ports hear next.
    fn hear(&mut self) -> PortEvent;

    /// Serves until its ports break or memory is wanting.
    fn serve(&mut self);
}

/// A server's ports, what it heard, the echoes that were not taken yet, and how much is left of the large answer.
#[derive(Drop)]
pub struct Echo<R> {
    alloc: Global,
    ports: SocketPorts<R>,
    heard: Heard,
    outbox: Outbox,
    // who asked for the large answer, how much of it is left, and how much was taken
    asker: u32,
    large: u64,
    taken: u64,
    // its front
    part: Vec<u8>,
}

fn long_text(alloc: Global) -> Option<Vec<u8>> {
    let mut text = Vec::with_capacity(alloc, PART).ok()?;
    for place in 0..PART {
        text.push((place % PERIOD) as u8).ok()?;
    }
    Some(text)
}

impl<R: Net + Files> Echo<R> {
    /// A server over these ports.
    pub fn new(alloc: Global, ports: SocketPorts<R>) -> Echo<R> {
        Echo {
            alloc,
            ports,
            heard: Heard::NOTHING,
            outbox: Outbox::new(alloc),
            asker: 0,
            large: 0,
            taken: 0,
            part: Vec::new(alloc),
        }
    }

    fn take(&mut self, event: PortEvent, piece: &[u8]) -> bool {
        match event {
            PortEvent::Opened(conn) => return self.begin(conn),
            PortEvent::Bytes(conn) => self.answer(conn, piece),
            PortEvent::Writable(conn) => self.offer(conn),
            PortEvent::Ended(conn) => {
                self.heard.ended = self.heard.ended.saturating_add(1);
                self.ports.close(conn);
                self.forget(conn);
            }
            PortEvent::Lost(conn) => self.lose(conn),
            PortEvent::Woken | PortEvent::Finished => {}
            PortEvent::Broken | PortEvent::NoMemory => return false,
        }
        true
    }

    fn begin(&mut self, conn: u32) -> bool {
        self.heard.opened = self.heard.opened.saturating_add(1);
        !self.outbox.has(conn) && self.outbox.begin(self.alloc, conn).is_ok()
    }

    fn lose(&mut self, conn: u32) {
        self.heard.lost = self.heard.lost.saturating_add(1);
        self.forget(conn);
    }

    fn forget(&mut self, conn: u32) {
        if self.outbox.has(conn) {
            self.outbox.forget(conn);
        }
    }

    fn answer(&mut self, conn: u32, piece: &[u8]) {
        if piece == b"heard?".as_slice() {
            self.answer_heard(conn);
        } else {
            self.heard.longest = self.heard.longest.max(piece.len());
            if piece == b"large?".as_slice() {
                self.begin_large(conn);
            } else {
                self.put(conn, piece);
            }
        }
        self.offer(conn);
    }

    fn answer_heard(&mut self, conn: u32) {
        if let Some(line) = self.heard.line(self.alloc) {
            self.heard = Heard::NOTHING;
            self.put(conn, line.as_bytes());
        }
    }

    fn begin_large(&mut self, conn: u32) {
        if let Some(part) = long_text(self.alloc) {
            self.part = part;
            self.asker = conn;
            self.large = LARGE;
            self.taken = 0;
        }
    }

    // Puts the answer behind what was not taken yet; one for which there is no room is left out.
    fn put(&mut self, conn: u32, bytes: &[u8]) {
        if self.outbox.has(conn) {
            drop(self.outbox.answer(conn, bytes));
        }
    }

    fn offer(&mut self, conn: u32) {
        if self.large > 0 && conn == self.asker {
            self.offer_large(conn);
        } else if self.outbox.has(conn) && self.outbox.offer(conn, &mut self.ports).is_err() {
            self.lose(conn);
        }
    }

    fn offer_large(&mut self, conn: u32) {
        for _ in 0..u64::MAX {
            let start = (self.taken % PERIOD as u64) as usize;
            let Some(behind) = self.part.get(start..) else {
                return;
            };
            let most = self.large.min(behind.len() as u64) as usize;
            let Some(part) = behind.get(..most) else {
                return;
            };
            let Ok(count) = self.ports.send(conn, part) else {
                self.large = 0;
                self.lose(conn);
                return;
            };
            self.large = self.large.saturating_sub(count as u64);
            self.taken = self.taken.saturating_add(count as u64);
            if count < most || self.large == 0 {
                return;
            }
        }
    }
}

impl<R: Net + Files> Server for Echo<R> {
    fn listen(&mut self, address: &str) -> Result<(), PortFault> {
        self.ports.listen(address)
    }

    fn hear(&mut self) -> PortEvent {
        self.ports.next(&mut Vec::new(self.alloc))
    }

    fn serve(&mut self) {
        let mut room = Vec::new(self.alloc);
        for _ in 0..u64::MAX {
            let event = self.ports.next(&mut room);
            if !self.take(event, room.as_slice()) {
                return;
            }
        }
    }
}
