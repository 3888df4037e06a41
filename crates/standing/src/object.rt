//! What an object is.

ghost use Rattle.std.specs.Prelude.{◌≡◌, [], ◌∷◌, IfOk, OnOk, OnErr};
ghost use Rattle.standing.specs.Objects.{ObjectValue, stay_of, wants};
ghost use Rattle.standing.specs.Told.{IsTold};

use rpq_base::{Event, Memory};

/// Whether an object wants to be told of more events.
#[derive(Clone, Copy, Debug, PartialEq, Eq)]
pub enum Stay {
    Keep,
    Leave,
}

/// What an embedding program hands to a run so as to act on events: to send an alert, to count, to
/// keep the last ones.
///
/// A run tells each object of the events of the queries that it wants, in order, until the object
/// leaves. Contracts see an object as the queries that it wants, the numbers of the events that it
/// heard, these events where it tells them, what it says, and whether it is gone.
pub trait Standing: Drop {
    ghost seen: { Self → ObjectValue };

    /// Whether the object wants the events of this query.
    fn wants(&self, query: u32) -> bool
        ensures { result ≡ wants (seen self.now).wanted query };

    /// Tells the object of an event. It answers that it leaves exactly where it is gone then. Where
    /// memory is refused, the object hasn't heard the event.
    fn tell(&mut self, event: &Event) -> Result<Stay, Memory>
        ensures told { OnOk result (IsTold (event.now ∷ []) (seen self.old) (seen self.new)) }
        ensures answer { IfOk result (λ stay. stay ≡ stay_of (seen self.new)) }
        ensures unchanged { OnErr result (seen self.new ≡ seen self.old) };

    /// What the object says of itself.
    fn say(&self) -> Result<Vec<u8>, Memory>
        ensures { IfOk result (λ text. text.items ≡ (seen self.now).said) };
}

// A box is the object in it.
impl Standing for Box<dyn Standing> {
    ghost seen = { λ b. (Standing-box b).seen b.value };

    fn wants(&self, query: u32) -> bool {
        (**self).wants(query)
    }

    fn tell(&mut self, event: &Event) -> Result<Stay, Memory> {
        (**self).tell(event)
    }

    fn say(&self) -> Result<Vec<u8>, Memory> {
        (**self).say()
    }
}
