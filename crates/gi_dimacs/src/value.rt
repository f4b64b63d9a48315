ghost use Rattle.std.specs.Prelude.{◌≡◌, ◌≢◌, IfSome, IfNone};
ghost use Rattle.gi_dimacs.specs.declared.content.Format.{Format};
ghost use Rattle.gi_dimacs.specs.declared.content.Format.TheVariants as formats;
ghost use Rattle.gi_dimacs.specs.Content.{File, format_of};
ghost use Rattle.gi_dimacs.specs.Texts.{cnf_file, icnf_file};

use crate::cnf::{Cnf, Icnf};
use crate::content::{Content, Format};

/// What a file of one of the two formats says.
pub trait FileValue: Drop {
    /// The format.
    ghost format: { Format };

    /// The value as what a file of either format says.
    ghost file: { Self → File };

    /// The format.
    fn format() -> Format
        ensures { result ≡ format };

    /// The value with so many variables that holds this; none exactly where a file of the format
    /// doesn't hold such.
    fn of(vars: u32, content: Content) -> Option<Self>
        ensures some { IfSome result (λ v. file v ≡ record { vars = vars; content = content }) }
        ensures none { IfNone result (format_of content ≢ format) };
}

impl FileValue for Cnf {
    ghost format = { formats.Cnf };

    ghost file = { cnf_file };

    fn format() -> Format {
        Format::Cnf
    }

    fn of(vars: u32, content: Content) -> Option<Cnf> {
        match content {
            Content::Clauses(clauses) => Some(Cnf { vars, clauses }),
            Content::Items(_) => None,
        }
    }
}

impl FileValue for Icnf {
    ghost format = { formats.Icnf };

    ghost file = { icnf_file };

    fn format() -> Format {
        Format::Icnf
    }

    fn of(vars: u32, content: Content) -> Option<Icnf> {
        match content {
            Content::Items(items) => Some(Icnf { vars, items }),
            Content::Clauses(_) => None,
        }
    }
}
