//! What the actors of a running farm call on and are promised nothing of: bells that wake the fronts,
//! and a gate before each drawing.

/// A bell that wakes a front which waits for events. It promises nothing: who waits has to look for
/// work whatever woke it.
pub trait Bell {
    /// Wakes the front.
    fn ring(&self);
}

/// A bell that wakes nobody.
#[derive(Clone, Copy)]
pub struct NoBell;

impl Bell for NoBell {
    fn ring(&self) {}
}

/// The bells of the three fronts.
#[derive(Drop)]
pub struct Bells<B> {
    /// The bell of the front of renderd's messages.
    pub renderd: B,
    /// The bell of the front that serves tiles over HTTP.
    pub tiles: B,
    /// The bell of the front of control lines.
    pub control: B,
}

/// A gate that a worker passes before it draws. It promises nothing; a test can hold a drawing at it.
pub trait Gate {
    /// Answers when the drawing of this ticket may begin.
    fn before_draw(&self, ticket: u64);
}

/// A gate that holds no drawing.
#[derive(Clone, Copy)]
pub struct OpenGate;

impl Gate for OpenGate {
    fn before_draw(&self, _ticket: u64) {}
}
