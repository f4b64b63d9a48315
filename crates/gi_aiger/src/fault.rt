// What is wrong with a file.
use thiserror::Error;

/// What is wrong with a line of a file, or with a binary gate. Where a line has several faults, the first of this list is
/// named. Of a binary gate's two differences the first is judged before the second.
#[derive(Clone, Copy, Debug, PartialEq, Eq, Error)]
pub enum AigCode {
    /// The first line isn't `aag` or `aig` and five to nine unsigned numbers, parted by single spaces; or its counts of
    /// variables, inputs, latches and gates are each at most 4,294,967,295, and that of the variables is below the sum of the
    /// other three in the ASCII form, or isn't the sum in the binary one.
    #[error("the header is wrong")]
    Header,
    /// A number of the header is above 1,048,576; or this line is the justice size by which the sum of the sizes so far passes
    /// that.
    #[error("a limit is passed")]
    Limit,
    /// A line between the header and the symbols hasn't its number of fields, parted by single spaces, or one of them is no
    /// unsigned number.
    #[error("a line hasn't its numbers")]
    Count,
    /// A literal is above twice the greatest variable and one, a defining one is odd or 0, a reset is neither 0 nor 1 nor the
    /// latch's own literal; or a binary difference, whose last byte is there, is spelled longer than need be or is 2^32 or more.
    #[error("a literal is wrong")]
    Literal,
    /// A line before this one defines the variable that this one defines.
    #[error("a variable is defined twice")]
    Defined,
    /// After this line more variables are used and not defined than latch and gate lines are still to come. In the ASCII form
    /// alone: in the binary one each variable up to the greatest is defined.
    #[error("a variable can't be defined any more")]
    Undefined,
    /// A binary gate's differences don't give literal > greater operand >= other operand >= 0: the first difference is 0 or
    /// above the gate's literal, or the second one is above the greater operand.
    #[error("a binary gate's operands are out of order")]
    Order,
    /// The gate of this line closes a cycle with gates before it, among which there is none. It is named before what is wrong
    /// with a later line. In the ASCII form alone: a binary gate's operands are below it.
    #[error("a cycle of gates is closed")]
    Cycle,
    /// A line behind the gates neither begins the comment nor is a symbol: a kind, a place below the count of what is of that
    /// kind, one space and a name of one byte at least, where no symbol before has the same kind and place.
    #[error("a symbol is wrong")]
    Symbol,
    /// The input ends before the gates are complete, and nothing in it is at fault.
    #[error("the input ends early")]
    End,
}

/// The first thing that is wrong with a file.
#[derive(Clone, Copy, Debug, PartialEq, Eq, Error)]
#[error("line {line}, gate {gate}: {code}")]
pub struct AigFault {
    /// The line, from 1. Binary gates are at the number of lines before them plus one, and so is the first line behind them,
    /// as their bytes are no lines. An early end is at the number of lines plus one, or at that of the binary gates.
    pub line: u64,
    /// The binary gate, from 1, or 0 where no binary gate is at fault.
    pub gate: u32,
    pub code: AigCode,
}
