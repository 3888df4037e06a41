//! Queries with their automata and verdicts.

ghost use Rattle.std.specs.Prelude.{◌≡◌, map, IfOk};

use containment_test::Verdict;
use dfa_table::Dfa;
use rpq_base::Memory;
use rpq_model::QueryDef;
use std::alloc::Global;
use std::marker::Model;

/// A query; its automaton, which is the least one that accepts the nonempty words of its
/// expression; and whether its language has the property of containment, as it has wherever the
/// query takes simple paths.
///
/// Contracts see it as the record of the three, and the type keeps that they belong together.
#[derive(Debug)]
pub struct Compiled {
    pub def: QueryDef,
    pub dfa: Dfa,
    pub verdict: Verdict,
}

impl Drop for Compiled {
    fn drop(self) {
        let Compiled {
            def: _def,
            dfa: _dfa,
            verdict: _verdict,
        } = self;
    }
}

impl Model for Compiled {
    ghost use Rattle.query_file.specs.Compiled.{CompiledValue, IsCompiled};
    ghost use Rattle.query_file.specs.CompiledCode.{compiled_code};

    ghost Value = { CompiledValue };

    ghost coded = { compiled_code };

    ghost view = { λ compiled. record {
      def = compiled.def;
      dfa = compiled.dfa;
      verdict = compiled.verdict;
    } };

    ghost invariant = { λ compiled. IsCompiled (record {
      def = compiled.def;
      dfa = compiled.dfa;
      verdict = compiled.verdict;
    }) };
}

/// Copies of the definitions of the queries, in their order. The only error is [`Memory`].
pub fn copied_definitions(alloc: Global, queries: &[Compiled]) -> Result<Vec<QueryDef>, Memory>
    ensures { IfOk result (λ copies. copies.items ≡ map (λ query. query.def) queries.now) }
{
    let mut copies = Vec::with_capacity(alloc, queries.len())?;
    for query in queries {
        copies.push(query.def.copy(alloc)?)?;
    }
    Ok(copies)
}
