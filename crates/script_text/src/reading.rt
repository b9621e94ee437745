//! Scripts line by line.
ghost use Rattle.std.specs.Prelude.{◌≡◌, ◌≤◌, ◌+◌, [], IfOk, length};
ghost use Rattle.cluster_model.specs.Limits.{IsInLimits};
ghost use Rattle.script_text.specs.Lines.{lines};
ghost use Rattle.script_text.specs.Orders.{names_after};
ghost use Rattle.script_text.specs.Reading as spec;

use crate::building::{is_built, is_built_shape};
use crate::forms::{Form, worded};
use crate::heads::{is_boot, shape_of};
use crate::lines::{Line, is_passed_over, is_utf8, next_line};
use crate::orders::order_of;
use crate::statements::statement_of;
use crate::whys::{BadScript, Why};
use crate::words::words;
use cluster_model::{Order, Orders, Script, Shape};
use rm_base::{Names, WantOfMemory};
use std::alloc::Global;

/// The sessions that the lines so far declare, and what these lines ask for.
#[derive(Debug, Drop)]
pub(crate) struct Draft {
    names: Names,
    orders: Orders,
}

/// What a line says. None where it has none of the forms.
#[tactic(auto, unfolding(crate::specs::Reading::form_of))]
fn form_of<'a>(alloc: Global, line: &'a [u8]) -> Result<Option<Form<'a>>, WantOfMemory>
    ensures { IfOk result (λ form. form ≡ spec.form_of line.now) }
{
    match statement_of(line) {
        Some(form) => Ok(Some(form)),
        None => {
            let words = words(alloc, line)?;
            Ok(worded(words.as_slice()))
        }
    }
}

/// The sessions with the one that the line declares.
fn with_session(alloc: Global, names: Names, form: &Form<'_>) -> Result<Names, WantOfMemory>
    ensures { IfOk result (λ names'. names' ≡ names_after names form.now) }
{
    match form {
        Form::Session(name, _) => {
            let mut names = names;
            names.push(name.to_name(alloc)?)?;
            Ok(names)
        }
        _ => Ok(names),
    }
}

/// The draft with one order more.
fn with_order(
    alloc: Global,
    draft: Draft,
    number: u32,
    form: &Form<'_>,
    order: Order,
) -> Result<Draft, WantOfMemory>
    ensures { IfOk result (λ draft'. draft' ≡ spec.with_order draft number form.now order) }
{
    let Draft { names, orders } = draft;
    let names = with_session(alloc, names, form)?;
    let mut orders = orders;
    orders.push(cluster_model::Line {
        line: number,
        order,
    })?;
    Ok(Draft { names, orders })
}

/// The draft with what a line of one of the forms asks for.
#[tactic(auto, unfolding(crate::specs::Reading::with_form))]
fn with_form(
    alloc: Global,
    shape: &Shape,
    draft: Draft,
    number: u32,
    form: &Form<'_>,
) -> Result<Result<Draft, Why>, WantOfMemory>
    requires limits { IsInLimits shape.now }
    requires sessions { length draft.names ≤ 64 }
    ensures value { IfOk result (λ r. r ≡ spec.with_form shape.now draft number form.now) }
    ensures few { IfOk result (λ r. IfOk r (λ draft'. length draft'.names ≤ 64)) }
{
    match order_of(alloc, shape, &draft.names, form)? {
        Ok(order) => {
            if !is_built(form) {
                return Ok(Err(Why::Later));
            }
            let draft = with_order(alloc, draft, number, form, order)?;
            Ok(Ok(draft))
        }
        Err(why) => Ok(Err(why)),
    }
}

/// Whether the line gives the log to start on, which it may right behind the first line alone.
#[tactic(auto, unfolding(crate::specs::Reading::boots))]
fn boots(alloc: Global, draft: &Draft, line: &[u8]) -> Result<bool, WantOfMemory>
    ensures { IfOk result (λ b. b ≡ spec.boots draft.now line.now) }
{
    if !draft.orders.is_empty() {
        return Ok(false);
    }
    let words = words(alloc, line)?;
    Ok(is_boot(words.as_slice()))
}

/// The draft with a line that is UTF-8 and not passed over.
#[tactic(auto, unfolding(crate::specs::Reading::with_filled))]
fn with_filled(
    alloc: Global,
    shape: &Shape,
    draft: Draft,
    number: u32,
    line: &[u8],
) -> Result<Result<Draft, Why>, WantOfMemory>
    requires limits { IsInLimits shape.now }
    requires sessions { length draft.names ≤ 64 }
    ensures value { IfOk result (λ r. r ≡ spec.with_filled shape.now draft number line.now) }
    ensures few { IfOk result (λ r. IfOk r (λ draft'. length draft'.names ≤ 64)) }
{
    match form_of(alloc, line)? {
        Some(form) => with_form(alloc, shape, draft, number, &form),
        None => {
            if boots(alloc, &draft, line)? {
                Ok(Err(Why::Later))
            } else {
                Ok(Err(Why::Form))
            }
        }
    }
}

/// The draft with one line more.
#[tactic(auto, unfolding(crate::specs::Reading::with_line))]
fn with_line(
    alloc: Global,
    shape: &Shape,
    draft: Draft,
    number: u32,
    line: &[u8],
) -> Result<Result<Draft, Why>, WantOfMemory>
    requires limits { IsInLimits shape.now }
    requires sessions { length draft.names ≤ 64 }
    ensures value { IfOk result (λ r. r ≡ spec.with_line shape.now draft number line.now) }
    ensures few { IfOk result (λ r. IfOk r (λ draft'. length draft'.names ≤ 64)) }
{
    if !is_utf8(line) {
        return Ok(Err(Why::Form));
    }
    if is_passed_over(line) {
        return Ok(Ok(draft));
    }
    with_filled(alloc, shape, draft, number, line)
}

/// What the lines behind the first one make of it.
fn read_orders(
    alloc: Global,
    shape: Shape,
    bytes: &[u8],
    first: u32,
) -> Result<Result<Script, BadScript>, WantOfMemory>
    requires limits { IsInLimits shape }
    requires few { first + length bytes.now ≤ 4194305 }
    ensures { IfOk result (λ r. r ≡ spec.orders_read shape spec.empty first (lines bytes.now)) }
{
    let mut draft = Draft {
        names: Names::new(alloc),
        orders: Orders::new(alloc),
    };
    let mut number = first;
    let mut rest = bytes;
    'lines: loop {
        match next_line(rest) {
            Some(Line { text, behind }) => {
                match with_line(alloc, &shape, draft, number, text)? {
                    Ok(longer) => draft = longer,
                    Err(why) => return Ok(Err(BadScript { line: number, why })),
                }
                number += 1;
                rest = behind;
            }
            None => {
                return Ok(Ok(Script {
                    shape,
                    boot: None,
                    orders: draft.orders,
                }));
            }
        }
    }
}

/// The shape that a first line says.
#[tactic(auto, unfolding(crate::specs::Reading::shape_in))]
fn shape_in(alloc: Global, line: &[u8]) -> Result<Result<Shape, Why>, WantOfMemory>
    ensures value { IfOk result (λ r. r ≡ spec.shape_in line.now) }
    ensures limits { IfOk result (λ r. IfOk r (λ shape. IsInLimits shape)) }
{
    let words = words(alloc, line)?;
    match shape_of(words.as_slice()) {
        Some(shape) => {
            if is_built_shape(&shape) {
                Ok(Ok(shape))
            } else {
                Ok(Err(Why::Later))
            }
        }
        None => Ok(Err(Why::Shape)),
    }
}

/// The script that the bytes are, or the first line that is bad and the first thing that is wrong with it.
#[tactic(auto, unfolding(crate::specs::Reading::script_of))]
pub(crate) fn read_lines(
    alloc: Global,
    bytes: &[u8],
) -> Result<Result<Script, BadScript>, WantOfMemory>
    requires { length bytes.now ≤ 4194304 }
    ensures { IfOk result (λ r. r ≡ spec.script_of bytes.now) }
{
    let mut number = 1;
    let mut rest = bytes;
    'lines: loop {
        match next_line(rest) {
            Some(Line { text, behind }) => {
                if !is_utf8(text) || !is_passed_over(text) {
                    return match shape_in(alloc, text)? {
                        Ok(shape) => read_orders(alloc, shape, behind, number + 1),
                        Err(why) => Ok(Err(BadScript { line: number, why })),
                    };
                }
                number += 1;
                rest = behind;
            }
            None => {
                return Ok(Err(BadScript {
                    line: number,
                    why: Why::Shape,
                }));
            }
        }
    }
}
