use gi_files::Form;

/// What the program is asked for.
#[derive(Clone, Copy, Debug, PartialEq, Eq)]
pub enum Command {
    /// A session, with a worker beside it unless it is to be quiet.
    Run { quiet: bool },
    /// The counts of an input.
    Check(Form),
    /// The canonical text of an input.
    Convert(Form),
    /// The solves of an input, each with this budget.
    Solve { form: Form, budget: u32 },
    /// The drill of so many rounds.
    Drill(u32),
}
