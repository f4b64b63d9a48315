// What stands in front of lines.

// What stands in front of a server's lines.
#[derive(Clone, Copy)]
pub enum Front {
    // A whole line of so many bytes, its LF not counted.
    Line(u32),
    // A line of more bytes than the limit. The lines aren't to be used again.
    Long,
    // No whole line is there, and more may come.
    More,
    // The server has ended, and nothing is left.
    Done,
}
