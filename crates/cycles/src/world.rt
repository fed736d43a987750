// What the parts of a rule are worked out in, and what working one out gives.
use crate::evaluate::Binding;
use crate::rules::Rules;
use crate::store::{Store, Stores};

/// A world with one store: the columns of a bench, the entities of a rule's variables, and the store.
#[derive(Clone, Copy)]
pub struct World<'r, 's> {
    pub rules: &'r Rules<'r>,
    pub b: Binding,
    pub store: &'s Store<'s>,
}

/// A world with two stores: what is asked of now, and of before.
#[derive(Clone, Copy)]
pub struct Worlds<'r, 's> {
    pub rules: &'r Rules<'r>,
    pub b: Binding,
    pub stores: &'s Stores<'s>,
}

/// What a walk over tokens worked out, and the number of the token after those that it read.
#[derive(Clone, Copy)]
pub struct Walked<T> {
    pub value: T,
    pub next: usize,
}
