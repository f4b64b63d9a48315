// Where a reader is in a file.
use crate::fault::AigCode;
use crate::row::Section;
use gi_lit::Edge;

/// Where a reader is in a file.
#[derive(Clone, Copy, Debug, PartialEq, Eq)]
pub enum Phase {
    /// In the header's line.
    Heading,
    /// In a line of a section.
    Rows(Section),
    /// In a binary gate: in its first difference, or behind that and the greater operand.
    Gates(Option<Edge>),
    /// In a line behind the gates.
    Naming,
    /// In the comment.
    Comment,
    /// Behind the first fault.
    Failed { gate: u32, code: AigCode },
}
