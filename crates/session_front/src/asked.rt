//! A request that was asked.
use farm_history::AskAnswer;
use renderd_protocol::Request;

/// A request with what it was answered at once; no value of it is made.
#[derive(Drop)]
pub struct Asked {
    pub request: Request,
    pub answer: AskAnswer,
}
