//! What is chosen in an order, and where that leads.

/// What comes next where several things may.
#[derive(Clone, Copy, Debug, PartialEq, Eq)]
pub enum Choice {
    /// The request at a place of the pending ones is read, and its reply taken.
    Trip(u64),
    /// The request at a place of the pending ones is read. Its reply is left until the single step.
    Ask(u64),
    /// The single step, and then the replies that were left.
    Step,
    /// Nothing is pending any more, and the file goes on.
    Over,
}

/// Where choices lead.
#[derive(Clone, Copy, Debug, PartialEq, Eq)]
pub enum Standing {
    /// To the end of the file.
    Ended,
    /// To a state in which more is to be chosen: whether the single step is still to come, and whether a reply was left.
    Choosing { is_due: bool, has_left: bool },
    /// To a choice that is not there.
    Lacking,
}
