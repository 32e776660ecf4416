//! The rule of the cell's table, and the kinds of step that keep it. All of it exists in proofs alone.
ghost use Rattle.std.specs.Prelude.{Option, None};
ghost use Rattle.turn_cell.specs.inner.Cell.{Kept, newcomer};
ghost use Rattle.turn_cell.specs.inner.Plays.{drew, looked, counted_as, served, learned, split_first, split_new, joining_views, spent};

use crate::call::StandsFor;
use crate::view::{Terms, View};
use atomic_table::{Join, Play, Split, TableRule};
use std::marker::{Brand, PhantomData};

pub(crate) struct InTurn<T> {
    marker: PhantomData<T>,
}

impl<T: StandsFor> TableRule<Option<T>, View<T, T::Entry>, Terms<T>> for InTurn<T> {
    ghost holds = { Kept T.stands T.lasting };

    ghost first = { newcomer };
}

pub(crate) struct Draw;

impl<T, E> Play<Option<T>, View<T, E>> for Draw {
    ghost then = { drew };
}

pub(crate) struct Look<T> {
    marker: PhantomData<T>,
}

impl<T: StandsFor> Play<Option<T>, View<T, T::Entry>> for Look<T> {
    ghost then = { looked T.stands T.lasting };
}

// The entry that the next step counts, for the proof alone: a call at `Brand` picks it.
pub(crate) trait Said<E> {
    ghost entry: { Option E };
}

impl<E> Said<E> for Brand {
    ghost entry = { None };
}

pub(crate) struct Count<W> {
    marker: PhantomData<W>,
}

impl<T, E, W: Said<E>> Play<Option<T>, View<T, E>> for Count<W> {
    ghost then = { counted_as W.entry };
}

pub(crate) struct Serve;

impl<T, E> Play<Option<T>, View<T, E>> for Serve {
    ghost then = { served };
}

pub(crate) struct Learn;

impl<T, E> Play<Option<T>, View<T, E>> for Learn {
    ghost then = { learned };
}

pub(crate) struct Cut;

impl<T, E> Split<View<T, E>> for Cut {
    ghost left = { split_first };

    ghost right = { split_new };
}

pub(crate) struct Merge;

impl<T, E> Join<View<T, E>> for Merge {
    ghost both = { joining_views };

    ghost spent = { spent };
}
