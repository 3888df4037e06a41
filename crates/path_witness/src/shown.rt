//! Paths that show an answer.

use std::marker::Model;

/// A path that shows an answer: until when the answer lasts, and the positions of the path's
/// entries in the history, in its order, from 1.
#[derive(Debug, Drop)]
pub struct ShownPath {
    pub until: u64,
    pub positions: Vec<u64>,
}

impl Model for ShownPath {
    ghost use Rattle.path_witness.specs.Shows.{Shown};

    ghost Value = { Shown };

    ghost view = { λ shown. record { until = shown.until; positions = shown.positions.items } };
}
