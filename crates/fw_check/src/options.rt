//! What a check is asked for.

use fuse_sessions::Party;

/// How a check prints.
#[derive(Clone, Copy, Debug, PartialEq, Eq)]
pub enum CheckForm {
    /// A line in words for each fault and each warning, and two lines of counts.
    Words,
    /// A JSON object a line: one that names the form's version, one for each fault and each warning, and one with the
    /// counts.
    Json,
}

/// What a check is asked for.
#[derive(Clone, Copy, Debug, PartialEq, Eq)]
pub struct CheckOptions {
    /// The party whose faults alone are printed and counted; `None` for all parties, and warnings.
    pub only: Option<Party>,
    pub form: CheckForm,
    /// The node whose life is printed in place of the faults, in words in either form.
    pub node: Option<u64>,
    /// Whether a table of opcodes is printed in place of the faults.
    pub is_summary: bool,
    /// Whether the exit status counts a warning as a fault.
    pub is_strict: bool,
    /// Whether the session is joined in its middle: of its faults those alone are named that are certain whatever went before.
    pub is_joined: bool,
}
