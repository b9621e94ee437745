//! Items with commas between them.

ghost use Rattle.std.specs.Prelude.{◌≡◌, ◌++◌, ◌∷◌, [], IfOk};
ghost use Rattle.sql_front.specs.Input as spec;
ghost use Rattle.sql_front.specs.Input.{Reads};

use crate::input::Input;
use crate::stopping::Stop;
use rm_base::Items;
use sql_words::{Class, Sign};
use std::alloc::Global;

/// What stands in a list. How an item is read may depend on those before it.
pub trait Item: Drop {
    ghost use Rattle.std.specs.Prelude.{List};
    ghost use Rattle.sql_front.specs.Input.{Reader};

    ghost reader: { List Self → Reader Self };

    ghost fits: { List Self → Type 0 } = { λ items. Unit {0} };

    fn read(alloc: Global, input: &mut Input<'_, '_>, before: &[Self]) -> Result<Self, Stop>
        ensures reads { Reads (reader before.now input.old) result input.new }
        ensures fits { IfOk result (λ x. fits (before.now ++ x ∷ [])) };
}

/// One item or more, with a comma before each but the first.
#[tactic(auto, unfolding(crate::specs::Input::listed))]
pub fn list<T: Item>(alloc: Global, input: &mut Input<'_, '_>) -> Result<Items<T>, Stop>
    ensures reads { Reads (spec.listed T.reader input.old) result input.new }
    ensures fits { IfOk result (λ items. T.fits items) }
{
    let mut items = Items::new(alloc);
    let first = T::read(alloc, input, items.as_slice())?;
    items.push(first)?;
    'items: for _turn in 0..input.len() {
        if !input.eat(Class::Sign(Sign::Comma)) {
            return Ok(items);
        }
        let item = T::read(alloc, input, items.as_slice())?;
        items.push(item)?;
    }
    Ok(items)
}
