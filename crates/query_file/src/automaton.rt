//! The automaton of an expression.

ghost use Rattle.std.specs.Prelude.{◌≡◌, ◌↔◌, ◌≤◌, ◌<◌, ◌^◌, List, Contains, IfOk, OnOk};
ghost use Rattle.std.specs.Prelude.{ℕ};
ghost use Rattle.rpq_base.specs.declared.data.Label.{Label};
ghost use Rattle.path_syntax.specs.Expression.{expression};
ghost use Rattle.path_syntax.specs.Language.{In};
ghost use Rattle.path_syntax.specs.Laws.{nonempty};
ghost use Rattle.path_syntax.specs.Size.{atoms, nodes};
ghost use Rattle.dfa_build.specs.declared.fault.BuildFault.{BuildFault as BuildFaultOf};
ghost use Rattle.dfa_build.specs.Marked.{labels_of};
ghost use Rattle.dfa_table.specs.Runs.{Accepts};
ghost use Rattle.minimal_dfa.specs.Least.{IsLeast};
ghost use Rattle.query_file.specs.QueryLine.{NeedsManyStates};

use dfa_build::{BuildFault, positions, subset};
use dfa_table::Dfa;
use minimal_dfa::minimize;
use path_syntax::{Expr, each_has_a_word};
use std::alloc::Global;

/// The least automaton that accepts the nonempty words of the expression.
pub fn automaton_of(alloc: Global, expr: &Expr) -> Result<Dfa, BuildFault>
    requires { nodes (expression expr.now) < 2 ^ 32 }
    ensures accepts { IfOk result (λ dfa. (word : List Label) →
        Accepts dfa word ↔ nonempty (In (expression expr.now)) word) }
    ensures labels { IfOk result (λ dfa. (label : Label) →
        Contains dfa.labels label ↔ Contains (labels_of (expression expr.now)) label) }
    ensures least { IfOk result IsLeast }
    ensures few_labels { OnOk result (atoms (expression expr.now) ≤ 64) }
    ensures few_states { OnOk result (NeedsManyStates (expression expr.now) → ⊥) }
    ensures labels_fault { (n : ℕ) → result ≡ Err (BuildFaultOf.TooManyLabels n) →
        (atoms (expression expr.now) ≡ n) × (64 < n) }
    ensures states_fault { result ≡ Err BuildFaultOf.TooManyStates →
        (atoms (expression expr.now) ≤ 64) × NeedsManyStates (expression expr.now) }
{
    each_has_a_word();
    let positions = positions(alloc, expr)?;
    let dfa = subset(alloc, &positions)?;
    Ok(minimize(alloc, &dfa)?)
}
