ghost use Rattle.std.specs.Prelude.{◌≡◌};
ghost use Rattle.sql_values.specs.Truths.{both, either, opposite};

/// The truth of a condition. A comparison with NULL is Unknown.
#[derive(Clone, Copy, Debug, PartialEq, Eq)]
pub enum Truth {
    Yes,
    No,
    Unknown,
}

/// No where one side is No, Yes where both are Yes, and Unknown else.
pub fn and(a: Truth, b: Truth) -> Truth
    ensures { result ≡ both a b }
{
    match (a, b) {
        (Truth::No, _) | (_, Truth::No) => Truth::No,
        (Truth::Yes, Truth::Yes) => Truth::Yes,
        _ => Truth::Unknown,
    }
}

/// Yes where one side is Yes, No where both are No, and Unknown else.
pub fn or(a: Truth, b: Truth) -> Truth
    ensures { result ≡ either a b }
{
    match (a, b) {
        (Truth::Yes, _) | (_, Truth::Yes) => Truth::Yes,
        (Truth::No, Truth::No) => Truth::No,
        _ => Truth::Unknown,
    }
}

/// The other of Yes and No. Unknown stays.
pub fn not(a: Truth) -> Truth
    ensures { result ≡ opposite a }
{
    match a {
        Truth::Yes => Truth::No,
        Truth::No => Truth::Yes,
        Truth::Unknown => Truth::Unknown,
    }
}
