//! Why a run doesn't begin, with what it leaves.

ghost use Rattle.std.specs.Prelude.{◌≡◌, None};

use rpq_text::StartFault;

/// Why a run doesn't begin, and the source of which a read failed, if one did.
#[derive(Drop)]
pub struct Refusal<S> {
    pub fault: StartFault,
    pub source: Option<S>,
}

/// The refusal for this, which leaves no source.
pub fn without_source<S>(fault: StartFault) -> Refusal<S>
    ensures { result ≡ record { fault = fault; source = None } }
{
    Refusal {
        fault,
        source: None,
    }
}
