//! What each step of the lock tells. These types are for the proofs alone.

ghost use Rattle.wall_ledger.specs.Tickets.{drawn, found, raised, passed, learned};
ghost use Rattle.std.specs.Prelude.{◌+◌, ◌-◌};
ghost use Rattle.wall_ledger.specs.Tickets.{idle};

use crate::lock::{After, Doing, Lesson, Part, Sight, Whole};
use atomic_table::{Join, Play, Split};
use std::marker::PhantomData;

pub struct Draw;

impl<T, V> Play<Option<T>, Doing<T, V>> for Draw {
    ghost then = { drawn };
}

pub struct Watch<M> {
    lesson: PhantomData<M>,
}

impl<T, V, M: Lesson<T, V>> Play<Option<T>, Doing<T, V>> for Watch<M> {
    ghost then = { found M.fact };
}

pub struct Raise;

impl<T, V> Play<Option<T>, Doing<T, V>> for Raise {
    ghost then = { raised };
}

pub struct PassOn<J> {
    after: PhantomData<J>,
}

impl<T, V, J: After<V>> Play<Option<T>, Doing<T, V>> for PassOn<J> {
    ghost then = { passed J.after };
}

pub struct Learn<M> {
    sight: PhantomData<M>,
}

impl<T, V, M: Sight<V>> Play<Option<T>, Doing<T, V>> for Learn<M> {
    ghost then = { learned M.then };
}

pub struct Cut<M> {
    part: PhantomData<M>,
}

impl<T, V, M: Part<V>> Split<Doing<T, V>> for Cut<M> {
    ghost left = { λ d. record { stage = d.stage; budget = d.budget - M.part; client = M.left d.client } };

    ghost right = { λ d. idle M.part (M.right d.client) };
}

pub struct Glue<M> {
    whole: PhantomData<M>,
}

impl<T, V, M: Whole<V>> Join<Doing<T, V>> for Glue<M> {
    ghost both = { λ d e. record { stage = d.stage; budget = d.budget + e.budget; client = M.both d.client e.client } };

    ghost spent = { idle 0 M.spent };
}
