//! What a value under the lock is seen as, and what a call under the lock owes.
ghost use Rattle.std.specs.Prelude.{ℕ, List};
ghost use Rattle.turn_cell.specs.Turns.{Ready, Ran};

/// A value that stands for a history: for a list of pairs of a seat's number and an entry.
pub trait StandsFor {
    /// One entry of the history. No value of it need be made.
    type Entry;
    /// The part of the value that no call changes. No value of it need be made.
    type Lasting;

    /// That part of a value.
    ghost lasting: { Self → Self.Lasting };

    /// Whether a value stands for a history.
    ghost stands: { Self → List (ℕ × Self.Entry) → Type 0 };
}

/// A call that takes one turn of a value. It is let go where the cell is worn, so it is `Drop`.
pub trait Call<T: StandsFor>: Drop {
    /// What the caller is answered.
    type Answer;

    /// The entry of the history, which the call and its answer determine.
    ghost entry: { Self → Self.Answer → T.Entry };

    /// What the call needs of the seat's number, of what the seat has seen and of the lasting part.
    ghost need: { Self → ℕ → List (ℕ × T.Entry) → T.Lasting → Type 0 };

    /// What it promises of its answer, of the history before its entry and of the lasting part.
    ghost promise: { Self → Self.Answer → List (ℕ × T.Entry) → T.Lasting → Type 0 };

    /// Runs the call on the value, which is out of the cell meanwhile: no other turn sees it.
    fn run(self, value: &mut T) -> Self::Answer
        requires { Ready T.stands T.lasting (need self) value.old }
        ensures { Ran T.stands T.lasting (need self) (entry self) (promise self)
            value.old value.new result };
}
