//! Needs that nothing covers in every order.

/// A need that is broken where all its blockers are merged and none of its helpers is. Members are
/// numbered from 0; a number that no member has is never merged.
#[derive(Debug, Drop)]
pub struct OpenNeed {
    pub blockers: Vec<u16>,
    pub helpers: Vec<u16>,
}
