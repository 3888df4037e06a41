//! How a run evaluates its queries, and what it tells of them.

use join_file::JoinDef;
use std::marker::Model;
use std::sync::Arc;

/// How a run evaluates its queries, and what it tells of them.
pub struct Options {
    /// Whether the queries may take edges backwards.
    pub two_way: bool,
    /// Whether a path is told behind each gained pair that shows it.
    pub paths: bool,
    /// The joins over the queries, whose bindings are told behind the pairs.
    pub joins: Arc<Vec<JoinDef>>,
}

impl Drop for Options {
    fn drop(self) {
        let Options {
            two_way: _two_way,
            paths: _paths,
            joins: _joins,
        } = self;
    }
}

impl Model for Options {
    ghost use Rattle.entry_steps.specs.Steps.{OptionsValue};

    ghost Value = { OptionsValue };

    ghost view = { λ options. record {
      two_way = options.two_way;
      paths = options.paths;
      joins = options.joins.value.items;
    } };
}
