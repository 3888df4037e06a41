//! Which of the program's outputs a sink is.

use rpq_io::{HostSink, Place};

/// A sink of which contracts see whether it is standard output, and whether it is standard error:
/// so that the events and the errors can't change places.
pub trait Outlet {
    ghost is_output: { Self → Type 0 };

    ghost is_errors: { Self → Type 0 };
}

impl<F> Outlet for HostSink<Place<F>> {
    ghost use Rattle.rpq.specs.Outlets.{IsErrors, IsOutput};

    ghost is_output = { λ sink. IsOutput sink.writer };

    ghost is_errors = { λ sink. IsErrors sink.writer };
}
