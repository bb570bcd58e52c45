use thiserror::Error;

/// A call to the outside failed. The count of faults of the shelf or sink rose.
#[derive(Clone, Copy, Debug, PartialEq, Eq, Error)]
#[error("a call to the outside failed")]
pub struct Failed;
