//! What a request needs: another request, or a group.

/// A dependency of a request (OData JSON Format 4.01, section 19.1, `dependsOn`).
#[derive(Clone, Copy, Debug, PartialEq, Eq)]
pub enum Need {
    /// The request at this position.
    One(u32),
    /// Every request of this unit, which is an atomicity group.
    Group(u32),
}
