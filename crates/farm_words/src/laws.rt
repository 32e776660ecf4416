//! What holds of words and their forms, as laws of the definitions by which `read_words` is exact.
ghost use Rattle.farm_words.specs.Forms.{SpellOne};
ghost use Rattle.farm_words.specs.Values.{PlainAreValues};

/// Words spell one command at most, so the answer of `read_words` to words that it takes is one command.
pub fn law_one_command()
    ensures { SpellOne }
{}

/// Words of which none is empty or begins with `-` are their own values: clap reads nothing else in them.
pub fn law_plain_words()
    ensures { PlainAreValues }
{}
