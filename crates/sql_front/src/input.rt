ghost use Rattle.std.specs.Prelude.{◌≡◌, take, drop, ◌<◌, ◌≤◌, ◌^◌, map, length, pos, neg_ℤ, IfOk, IfErr, IfSome, IfNone, [], ◌∷◌};
ghost use Rattle.sql_words.specs.Reserved.{lowered};
ghost use Rattle.sql_front.specs.Good.{AreGood, IsGood};
ghost use Rattle.sql_front.specs.Input as spec;
ghost use Rattle.sql_front.specs.Input.{Reads};
ghost use Rattle.sql_front.specs.Symbols.{symbol_of, same_class, sees, behind};

use crate::stopping::Stop;
use rm_base::{Name, Text};
use sql_words::{Class, Token, content_of, number_in};
use std::alloc::Global;
use std::marker::Model;

const PAST_THE_GREATEST: u64 = 9223372036854775808;

/// The tokens of a statement that are still to be read, up to an end. Contracts see what they stand for.
#[derive(Drop)]
pub struct Input<'t, 'a> {
    tokens: &'t [Token<'a>],
    at: usize,
    end: usize,
}

impl<'t, 'a> Model for Input<'t, 'a> {
    ghost use Rattle.std.specs.Prelude.{List};
    ghost use Rattle.sql_front.specs.Symbols.{Symbol};

    ghost Value = { List Symbol };

    ghost use Rattle.sql_front.specs.Cursor.{symbols_left, IsCursor};

    ghost view = { λ i. symbols_left i.tokens.now i.at i.end };

    ghost invariant = { λ i. IsCursor i.tokens.now i.at i.end };
}

impl<'t, 'a> Input<'t, 'a> {
    pub fn new(tokens: &'t [Token<'a>]) -> Input<'t, 'a>
        requires { AreGood tokens.now }
        ensures { result ≡ map symbol_of tokens.entry.now }
    {
        Input {
            tokens,
            at: 0,
            end: tokens.len(),
        }
    }

    /// How many tokens are left.
    pub fn len(&self) -> usize
        ensures { result ≡ length self.now }
    {
        self.end - self.at
    }

    /// The first tokens that are left, at most so many.
    pub fn window(&self, len: usize) -> Input<'t, 'a>
        ensures { result ≡ take len self.now }
    {
        let end = if len < self.end - self.at {
            self.at + len
        } else {
            self.end
        };
        Input {
            tokens: self.tokens,
            at: self.at,
            end,
        }
    }

    /// Passes so many tokens over.
    pub fn pass(&mut self, count: usize)
        ensures { self.new ≡ drop count self.old }
    {
        if count < self.end - self.at {
            self.at += count;
        } else {
            self.at = self.end;
        }
    }

    /// Whether the next token is of the class.
    pub fn sees(&self, class: Class) -> bool
        ensures { result ≡ sees class self.now }
    {
        if self.at < self.end {
            let token = &self.tokens[self.at];
            is_same(class, token.class)
        } else {
            false
        }
    }

    /// Passes the next token over.
    pub fn step(&mut self)
        ensures { self.new ≡ behind self.old }
    {
        if self.at < self.end {
            self.at += 1;
        }
    }

    /// Takes a token of the class, if it comes next.
    #[tactic(auto, unfolding(crate::specs::Input::after))]
    pub fn eat(&mut self, class: Class) -> bool
        ensures found { result ≡ sees class self.old }
        ensures after { self.new ≡ spec.after class self.old }
    {
        let found = self.sees(class);
        if found {
            self.step();
        }
        found
    }

    /// Takes a token of the class, and refuses every other.
    pub fn expect(&mut self, class: Class) -> Result<(), Stop>
        ensures { Reads (spec.expect class self.old) result self.new }
    {
        self.expect_if(true, class)
    }

    /// The same, where the test allows one here.
    #[tactic(auto, unfolding(crate::specs::Input::expect_if))]
    pub fn expect_if(&mut self, allowed: bool, class: Class) -> Result<(), Stop>
        ensures { Reads (spec.expect_if allowed class self.old) result self.new }
    {
        if self.sees(class) && allowed {
            self.step();
            Ok(())
        } else {
            Err(Stop::Refused)
        }
    }

    /// The next token.
    fn first(&self) -> Option<&Token<'a>>
        ensures some { IfSome result (λ t. self.now ≡ symbol_of t.now ∷ behind self.now) }
        ensures good { IfSome result (λ t. IsGood t.now.class t.now.text) }
        ensures none { IfNone result (self.now ≡ []) }
    {
        if self.at < self.end {
            Some(&self.tokens[self.at])
        } else {
            None
        }
    }

    #[tactic(auto, unfolding(crate::specs::Input::named))]
    /// The name that comes next, in lower case, which stays there.
    pub fn named(&self, alloc: Global) -> Result<Name, Stop>
        ensures { Reads (spec.named self.now) result self.now }
    {
        let Some(token) = self.first() else {
            return Err(Stop::Refused);
        };
        match token.class {
            Class::Name => name_of(alloc, token.text),
            _ => Err(Stop::Refused),
        }
    }

    #[tactic(auto, unfolding(crate::specs::Input::numbered))]
    /// The number that comes next, which stays there.
    pub fn numbered(&self) -> Result<u64, Stop>
        ensures number { Reads (spec.numbered self.now) result self.now }
        ensures bound { IfOk result (λ n. n ≤ 2 ^ 63) }
    {
        let Some(token) = self.first() else {
            return Err(Stop::Refused);
        };
        match token.class {
            Class::Number => match number_in(token.text) {
                Some(number) => Ok(number),
                None => Err(Stop::Refused),
            },
            _ => Err(Stop::Refused),
        }
    }

    #[tactic(auto, unfolding(crate::specs::Input::texted))]
    /// The text that comes next, which stays there.
    fn texted(&self, alloc: Global) -> Result<Text, Stop>
        ensures { Reads (spec.texted self.now) result self.now }
    {
        let Some(token) = self.first() else {
            return Err(Stop::Refused);
        };
        match token.class {
            Class::Text => Ok(content_of(alloc, token.text)?),
            _ => Err(Stop::Refused),
        }
    }

    /// Takes a text.
    #[tactic(auto, unfolding(crate::specs::Input::text_value))]
    pub fn text(&mut self, alloc: Global) -> Result<Text, Stop>
        ensures { Reads (spec.text_value self.old) result self.new }
    {
        let text = self.texted(alloc)?;
        self.step();
        Ok(text)
    }

    /// Takes a name.
    #[tactic(auto, unfolding(crate::specs::Input::any_name))]
    pub fn name(&mut self, alloc: Global) -> Result<Name, Stop>
        ensures { Reads (spec.any_name self.old) result self.new }
    {
        let name = self.named(alloc)?;
        self.step();
        Ok(name)
    }

    /// Takes a number up to 2^63 - 1.
    #[tactic(auto, unfolding(crate::specs::Input::small_number))]
    pub fn small_number(&mut self) -> Result<i64, Stop>
        ensures { Reads (spec.small_number self.old) result self.new }
    {
        let number = self.numbered()?;
        if number >= PAST_THE_GREATEST {
            return Err(Stop::Refused);
        }
        self.step();
        Ok(number as i64)
    }

    /// Takes a number behind a minus, and answers it with its sign.
    #[tactic(auto, unfolding(crate::specs::Input::negative_number))]
    pub fn negative_number(&mut self) -> Result<i64, Stop>
        ensures { Reads (spec.negative_number self.old) result self.new }
    {
        let number = self.numbered()?;
        self.step();
        Ok(negated(number))
    }
}

/// The number with a minus before it.
fn negated(number: u64) -> i64
    requires { number ≤ 2 ^ 63 }
    ensures { result ≡ neg_ℤ (pos number) }
{
    if number == PAST_THE_GREATEST {
        i64::MIN
    } else {
        -(number as i64)
    }
}

/// The bytes of a name token as a name, in lower case.
fn name_of(alloc: Global, bytes: &[u8]) -> Result<Name, Stop>
    requires some { 0 < length bytes.now }
    requires few { length bytes.now ≤ 32 }
    ensures name { IfOk result (λ n. n ≡ lowered bytes.now) }
    ensures memory { IfErr result (λ e. e ≡ Stop.Memory) }
{
    let lowered = bytes
        .iter()
        .map(|byte| byte.to_ascii_lowercase())
        .collect(alloc)?;
    match Name::new(Text::from_vec(lowered)) {
        Some(name) => Ok(name),
        None => Err(Stop::Refused),
    }
}

fn is_same(a: Class, b: Class) -> bool
    ensures { result ≡ same_class a b }
{
    a == b
}
