//! What holds of styles by the grammars of their texts.
ghost use Rattle.style_objects.specs.Laws.{ReadsGrammar, OneStyle};

/// The functions that go over the texts of filters, colours, numbers and pictures say what the grammars say, and
/// every reading that does makes of the bytes of a style the same style or the same fault. So what a style says
/// rests on the grammars alone. A law of the definitions; it does nothing when called.
pub fn law_styles_by_grammar()
    ensures reads { ReadsGrammar }
    ensures style { OneStyle }
{}
