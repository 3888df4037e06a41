//! The row of a source.

ghost use Rattle.std.specs.Prelude.{◌≡◌, ◌+◌, length, if◌then◌else◌};
ghost use Rattle.std.specs.Prelude.{IsTrue, IfOk, OnOk, OnErr};
ghost use Rattle.answer_rows.specs.Answers.{AreTargets, has_target};
ghost use Rattle.answer_rows.specs.RowEdits.{with_target, without_target};

use crate::target::{Target, place_of};
use rpq_base::{Memory, Name, TryClone};
use std::alloc::Global;
use std::marker::Model;
use std::sync::Arc;

/// The targets of a source.
///
/// Contracts see the list of the targets. Copies share them, and a change makes them anew where
/// they are shared.
#[derive(Debug, Drop)]
pub struct Row {
    targets: Arc<Vec<Target>>,
}

impl Model for Row {
    ghost use Rattle.std.specs.Prelude.{List};
    ghost use Rattle.answer_rows.specs.declared.target.Target.{Target};

    ghost Value = { List Target };

    ghost view = { λ row. row.targets.value.items };
}

impl Row {
    /// These targets.
    pub(crate) fn new(alloc: Global, targets: Vec<Target>) -> Result<Row, Memory>
        ensures { IfOk result (λ row. row ≡ targets.items) }
    {
        Ok(Row {
            targets: Arc::new(alloc, targets)?,
        })
    }

    /// The targets, in their order.
    pub(crate) fn targets(&self) -> &[Target]
        ensures { result.now ≡ self.now }
    {
        self.targets.as_slice()
    }

    /// Moves a target's end, or puts the target into its place. Answers whether it is new.
    pub(crate) fn put(&mut self, to: &Name, until: u64) -> Result<bool, Memory>
        requires { AreTargets self.old }
        ensures row { OnOk result (self.new ≡ with_target self.old to.now until) }
        ensures gained { IfOk result (λ gained.
            length self.new ≡ length self.old + (if gained then 1 else 0)) }
        ensures unchanged { OnErr result (self.new ≡ self.old) }
    {
        put_target(Arc::make_mut(&mut self.targets)?, to, until)
    }

    /// Takes the target of this name out.
    pub(crate) fn take(&mut self, to: &Name) -> Result<(), Memory>
        requires sorted { AreTargets self.old }
        requires there { IsTrue (has_target self.old to.now) }
        ensures row { OnOk result (self.new ≡ without_target self.old to.now) }
        ensures lost { OnOk result (length self.new + 1 ≡ length self.old) }
        ensures unchanged { OnErr result (self.new ≡ self.old) }
    {
        take_target(Arc::make_mut(&mut self.targets)?, to);
        Ok(())
    }
}

impl TryClone for Row {
    fn copy(&self) -> Result<Row, Memory> {
        Ok(Row {
            targets: Arc::try_clone(&self.targets)?,
        })
    }
}

/// Moves the target's end, or puts the target into its place. Answers whether it is new.
fn put_target(targets: &mut Vec<Target>, to: &Name, until: u64) -> Result<bool, Memory>
    requires { AreTargets targets.old.items }
    ensures row { OnOk result (targets.new.items ≡ with_target targets.old.items to.now until) }
    ensures gained { IfOk result (λ gained.
        length targets.new.items ≡ length targets.old.items + (if gained then 1 else 0)) }
    ensures unchanged { OnErr result (targets.new.items ≡ targets.old.items) }
{
    match place_of(targets, to) {
        Ok(place) => {
            targets[place].until = until;
            Ok(false)
        }
        Err(place) => {
            let to = to.copy()?;
            targets.insert(place, Target { to, until })?;
            Ok(true)
        }
    }
}

/// Takes the target of this name out.
fn take_target(targets: &mut Vec<Target>, to: &Name)
    requires sorted { AreTargets targets.old.items }
    requires there { IsTrue (has_target targets.old.items to.now) }
    ensures row { targets.new.items ≡ without_target targets.old.items to.now }
    ensures lost { length targets.new.items + 1 ≡ length targets.old.items }
{
    if let Ok(place) = place_of(targets, to) {
        targets.remove(place);
    }
}
