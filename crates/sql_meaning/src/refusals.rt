use rm_base::{Name, Text};

/// Why a statement is refused before anything is evaluated.
#[derive(Debug, Drop)]
pub enum Refusal {
    TableExists(Name),
    NoTable(Name),
    /// The column as the text has it, with its table's name and a dot where these are written.
    NoColumn(Text),
    WrongType,
}
