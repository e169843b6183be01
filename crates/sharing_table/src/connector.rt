use crate::LockMode;

/// How a connector locks records: the clause LOCK MODE with its phrase LOCK ON.
#[derive(Clone, Copy, Debug, PartialEq, Eq)]
pub struct LockRule {
    /// What LOCK MODE says; `Unset` where it is not written.
    pub mode: LockMode,
    /// Whether it may hold several locks at once. A single connector has one at most.
    pub multiple: bool,
}
