//! What holds of the messages of a connection, whatever its bytes are and however they come. `next`
//! and `write` are exact by the same definitions, so these are laws of what they answer.
ghost use Rattle.renderd_protocol.specs.Stream.{AnyPieces, TakesMessages, SplitsOneWay, FindsMessages, ReadsBack};

/// A whole message at the head of the bytes is found whatever follows it, and nothing else is found.
pub fn law_messages_are_found()
    ensures { FindsMessages }
{}

/// What was written is read back with its command, whatever follows it.
pub fn law_written_is_read_back()
    ensures { ReadsBack }
{}

/// The reader of a connection takes the requests of the whole messages at the head of its bytes, up to
/// a rest that begins with none. Bytes split so in one way alone, and the requests and the rest are
/// the same however the bytes are cut into pieces.
pub fn law_any_pieces()
    ensures takes { TakesMessages }
    ensures one_way { SplitsOneWay }
    ensures pieces { AnyPieces }
{}
