//! What holds of numbers, as a law of the definition by which the readers of numbers are exact.
ghost use Rattle.farm_base.specs.Laws.{IsReadAsNumber};

/// A text is read as a number exactly where it is that number in decimal.
pub fn law_numbers()
    ensures { IsReadAsNumber }
{}
