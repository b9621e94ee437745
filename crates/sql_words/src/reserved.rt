ghost use Rattle.std.specs.Prelude.{◌≡◌, ◌≢◌, IfSome, IfNone};
ghost use Rattle.sql_words.specs.declared.reserved.Word as declared;
ghost use Rattle.sql_words.specs.Reserved as spec;

/// A word that SQL reserves. No table or column has one as its name.
#[derive(Clone, Copy, Debug, PartialEq, Eq)]
pub enum Word {
    And,
    Asc,
    Begin,
    By,
    Commit,
    Count,
    Create,
    Delete,
    Desc,
    From,
    Insert,
    Int,
    Into,
    Is,
    Join,
    Key,
    Limit,
    Max,
    Min,
    Not,
    Null,
    On,
    Or,
    Order,
    Primary,
    Rollback,
    Select,
    Set,
    Sum,
    Table,
    Text,
    Update,
    Values,
    Where,
}

/// Every reserved word, in the order of the alphabet.
pub const WORDS: [Word; 34] = [
    Word::And,
    Word::Asc,
    Word::Begin,
    Word::By,
    Word::Commit,
    Word::Count,
    Word::Create,
    Word::Delete,
    Word::Desc,
    Word::From,
    Word::Insert,
    Word::Int,
    Word::Into,
    Word::Is,
    Word::Join,
    Word::Key,
    Word::Limit,
    Word::Max,
    Word::Min,
    Word::Not,
    Word::Null,
    Word::On,
    Word::Or,
    Word::Order,
    Word::Primary,
    Word::Rollback,
    Word::Select,
    Word::Set,
    Word::Sum,
    Word::Table,
    Word::Text,
    Word::Update,
    Word::Values,
    Word::Where,
];

impl Word {
    /// The word in upper case.
    #[tactic(auto, unfolding(crate::specs::Reserved::spelling))]
    pub fn spelling(self) -> &'static [u8]
        ensures { result.now ≡ spec.spelling self }
    {
        match self {
            Word::And => b"AND",
            Word::Asc => b"ASC",
            Word::Begin => b"BEGIN",
            Word::By => b"BY",
            Word::Commit => b"COMMIT",
            Word::Count => b"COUNT",
            Word::Create => b"CREATE",
            Word::Delete => b"DELETE",
            Word::Desc => b"DESC",
            Word::From => b"FROM",
            Word::Insert => b"INSERT",
            Word::Int => b"INT",
            Word::Into => b"INTO",
            Word::Is => b"IS",
            Word::Join => b"JOIN",
            Word::Key => b"KEY",
            Word::Limit => b"LIMIT",
            Word::Max => b"MAX",
            Word::Min => b"MIN",
            Word::Not => b"NOT",
            Word::Null => b"NULL",
            Word::On => b"ON",
            Word::Or => b"OR",
            Word::Order => b"ORDER",
            Word::Primary => b"PRIMARY",
            Word::Rollback => b"ROLLBACK",
            Word::Select => b"SELECT",
            Word::Set => b"SET",
            Word::Sum => b"SUM",
            Word::Table => b"TABLE",
            Word::Text => b"TEXT",
            Word::Update => b"UPDATE",
            Word::Values => b"VALUES",
            Word::Where => b"WHERE",
        }
    }
}

/// The reserved word that the bytes are, in whatever case.
pub fn reserved(text: &[u8]) -> Option<Word>
    ensures value { result ≡ spec.word_of text.now }
    ensures found { IfSome result (λ w. spec.lowered text.now ≡ spec.lowered (spec.spelling w)) }
    ensures none { IfNone result ((w : declared.Word) → spec.lowered text.now ≢ spec.lowered (spec.spelling w)) }
{
    for word in WORDS {
        if word.spelling().eq_ignore_ascii_case(text) {
            return Some(word);
        }
    }
    None
}
