//! What may be asked.

/// What is asked.
#[derive(Clone, Copy)]
pub enum ReachRequest {
    Read,
    File,
    Joins,
    Marks,
    Shown,
    Both,
    Bindings,
    Cut,
}

impl ReachRequest {
    /// What the keyword asks.
    pub fn named(keyword: &[u8]) -> Option<ReachRequest> {
        match keyword {
            b"read" => Some(ReachRequest::Read),
            b"file" => Some(ReachRequest::File),
            b"joins" => Some(ReachRequest::Joins),
            b"marks" => Some(ReachRequest::Marks),
            b"shown" => Some(ReachRequest::Shown),
            b"both" => Some(ReachRequest::Both),
            b"bindings" => Some(ReachRequest::Bindings),
            b"cut" => Some(ReachRequest::Cut),
            _ => None,
        }
    }
}
