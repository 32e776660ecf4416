//! What holds of the texts that are written of filters.
ghost use Rattle.filter_texts.specs.Written.{ReadsAgain, AnswersAgain, IsKnownByText};

/// The text that is written of a filter is read as that filter again, for each filter that some text says.
pub fn law_written_again()
    ensures { ReadsAgain }
{}

/// Where a filter was read from a text, nothing but that filter and want of memory may be answered for
/// what is written of it.
pub fn law_answered_again()
    ensures { AnswersAgain }
{}

/// Two filters of texts that are written alike are one filter.
pub fn law_known_by_text()
    ensures { IsKnownByText }
{}
