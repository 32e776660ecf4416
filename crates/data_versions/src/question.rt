//! What features are looked for by.
ghost use Rattle.std.specs.Prelude.{◌≡◌, ◌<◌, position, length, IfSome};
ghost use Rattle.data_versions.specs.inner.Questions.{answers};

use crate::shared::SharedFeature;
use geo_model::Bounds;

/// A rectangle, and marks of attributes of which a feature that is near it is to have one, if some are asked for.
#[derive(Clone, Copy)]
pub(crate) struct Wanted {
    pub around: Bounds,
    pub asked: Option<u64>,
}

/// What a feature is looked for by: its id, or a rectangle that its box meets. What has none of the marks may be left out.
#[derive(Clone, Copy)]
pub(crate) enum Question {
    HasId(u64),
    IsNear(Wanted),
}

fn answers(feature: &SharedFeature, question: Question) -> bool
    ensures { result ≡ answers question feature.now }
{
    match question {
        Question::HasId(id) => feature.id() == id,
        Question::IsNear(wanted) => feature.bbox().meets(&wanted.around),
    }
}

/// The place of the first of the features that answers the question.
pub(crate) fn first_answer(features: &[SharedFeature], question: Question) -> Option<usize>
    ensures place { result ≡ position (answers question) features.now }
    ensures bound { IfSome result (λ place. place < length features.now) }
{
    features.iter().position(|f| answers(f, question))
}
