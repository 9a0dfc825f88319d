//! The words for a person on a ledger's line that contradicts the table: which link, and how.
use command_line::Shown;
use ledger_report::{Difference, Disputed, Unheld};
use std::alloc::Global;
use std::fmt;
use std::fmt::{Display, Formatter};
use tap_inputs::Amount;
use vl_config::Config;

/// A table, and what a person knows it by.
#[derive(Clone, Copy)]
pub struct KnownTable<'a> {
    pub name: &'a str,
    pub config: &'a Config,
}

/// A link on which a line and the table differ.
#[derive(Clone, Copy)]
struct DisputedLink<'a> {
    table: KnownTable<'a>,
    disputed: &'a Disputed,
}

impl KnownTable<'_> {
    /// How a line differs from the table, if it does so on a link, and there is memory to tell.
    pub fn tell(self, alloc: Global, disputed: Option<Disputed>) -> Option<String> {
        let disputed = &disputed?;
        let told = DisputedLink {
            table: self,
            disputed,
        };
        told.to_string(alloc).ok()
    }
}

impl Display for DisputedLink<'_> {
    fn fmt<W: fmt::Write>(&self, f: &mut Formatter<W>) -> fmt::Result {
        let (id, table) = (self.disputed.id, Shown(self.table.name));
        let number = id.0;
        write!(f, "link {number}")?;
        if let Some(link) = self.table.config.link(id) {
            let name = link.name.as_str();
            write!(f, " {name}")?;
        }
        match &self.disputed.how {
            Difference::Lacks => write!(f, " isn't in the table {table}"),
            Difference::Has => write!(f, " is unconfigured there, and the table {table} has it"),
            Difference::Checks => {
                write!(
                    f,
                    " has other integrity checking or redundancy management in the table {table}"
                )
            }
            Difference::Skew { apart, most } => {
                let (apart, most) = (Amount(*apart), Amount(*most));
                write!(
                    f,
                    " has a copy {apart} after its delivery, and SkewMax {most} in the table {table}"
                )
            }
            Difference::Named(name) => {
                let name = Shown(name);
                write!(f, " of the table {table} is {name} there")
            }
            Difference::Uncounted => write!(f, " of the table {table} has no counts there"),
            Difference::Unheld(why) => {
                let words = unheld_words(*why);
                write!(f, " has a frame {words} the table {table}")
            }
        }
    }
}

/// How a verdict of policing and the table differ on a link.
fn unheld_words(why: Unheld) -> &'static str {
    match why {
        Unheld::Size => "that isn't toolong, and longer than Smax in",
        Unheld::Within => "within an account that can't hold it, by",
        Unheld::Excess => "in excess of an account that holds it, by",
    }
}
