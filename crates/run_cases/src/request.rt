//! What may be asked.

/// What is asked.
#[derive(Clone, Copy)]
pub enum RunRequest {
    Engine,
    Front,
    Rebuild,
    Run,
    Calls,
    Readers,
    Faults,
    Live,
    Told,
}

impl RunRequest {
    /// What the keyword asks.
    pub fn named(keyword: &[u8]) -> Option<RunRequest> {
        match keyword {
            b"engine" => Some(RunRequest::Engine),
            b"front" => Some(RunRequest::Front),
            b"rebuild" => Some(RunRequest::Rebuild),
            b"run" => Some(RunRequest::Run),
            b"calls" => Some(RunRequest::Calls),
            b"readers" => Some(RunRequest::Readers),
            b"faults" => Some(RunRequest::Faults),
            b"live" => Some(RunRequest::Live),
            b"told" => Some(RunRequest::Told),
            _ => None,
        }
    }
}
