//! What holds of saved texts and of what is saved, as laws of the definitions.
ghost use Rattle.farm_saved.specs.Laws.{ReadsBack, Resumes};

/// What is saved, if it is sound, is what its text says: `read_saved` of what `write_saved` gives is it
/// again.
pub fn law_reads_back()
    ensures { ReadsBack }
{}

/// For every valid plan: where what is saved after a legal history is replayed, the replay is legal over any
/// store; its data are those of the history; what is clean after the history is clean after it, at the same
/// version, over the same data and in the same style; and nothing else is shown.
pub fn law_resumed()
    ensures { Resumes }
{}
