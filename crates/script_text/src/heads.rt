//! The first line of a script, and the one that may follow it.
ghost use Rattle.std.specs.Prelude.{◌≡◌, ◌≤◌, IfSome};
ghost use Rattle.std.specs.List.{list_all};
ghost use Rattle.cluster_model.specs.Limits.{IsInLimits};
ghost use Rattle.script_text.specs.Boots.{is_boot, is_hex_digit};
ghost use Rattle.script_text.specs.Heads as spec;

use crate::numbers::{is_digit, number_of};
use crate::words::Part;
use cluster_model::Shape;

/// The shape that the words of a first line say. None where they say none, or one outside the limits.
pub fn shape_of(words: &[Part<'_>]) -> Option<Shape>
    ensures value { result ≡ spec.shape_of words.now }
    ensures limits { IfSome result (λ shape. IsInLimits shape) }
{
    match words {
        [
            first,
            second,
            nodes,
            fourth,
            slabs,
            sixth,
            slots,
            eighth,
            cache,
        ] => {
            if !are_shape_words(first, second, fourth, sixth, eighth) {
                return None;
            }
            shape_from(nodes, slabs, slots, cache)
        }
        _ => None,
    }
}

#[tactic(auto, unfolding(crate::specs::Heads::are_shape_words))]
fn are_shape_words(
    first: &Part<'_>,
    second: &Part<'_>,
    fourth: &Part<'_>,
    sixth: &Part<'_>,
    eighth: &Part<'_>,
) -> bool
    ensures { result ≡ spec.are_shape_words first.now second.now fourth.now sixth.now eighth.now }
{
    first.is(b"cluster")
        && second.is(b"nodes")
        && fourth.is(b"slabs")
        && sixth.is(b"slots")
        && eighth.is(b"cache")
}

/// A number between two bounds.
#[tactic(auto, unfolding(crate::specs::Heads::within))]
fn within(word: &Part<'_>, low: u32, high: u32) -> Option<u32>
    ensures value { result ≡ spec.within word.now low high }
    ensures low { IfSome result (λ n. low ≤ n) }
    ensures high { IfSome result (λ n. n ≤ high) }
{
    let number = number_of(word.bytes())?;
    if low <= number && number <= high {
        Some(number)
    } else {
        None
    }
}

#[tactic(auto, unfolding(crate::specs::Heads::shape_from))]
fn shape_from(
    nodes: &Part<'_>,
    slabs: &Part<'_>,
    slots: &Part<'_>,
    cache: &Part<'_>,
) -> Option<Shape>
    ensures value { result ≡ spec.shape_from nodes.now slabs.now slots.now cache.now }
    ensures limits { IfSome result (λ shape. IsInLimits shape) }
{
    let nodes = within(nodes, 1, 16)?;
    let slabs = within(slabs, 1, 16)?;
    let slots = within(slots, 8, 4096)?;
    let cache = within(cache, 16, 1024)?;
    Some(Shape {
        nodes: nodes as u8,
        slabs: slabs as u8,
        slots: slots as u16,
        cache: cache as u16,
    })
}

#[tactic(auto, unfolding(crate::specs::Boots::is_hex_digit))]
fn is_hex_digit(byte: u8) -> bool
    ensures { result ≡ is_hex_digit byte }
{
    is_digit(byte) || (byte >= b'a' && byte <= b'f')
}

fn all_hex(word: &[u8]) -> bool
    ensures { result ≡ list_all is_hex_digit word.now }
{
    word.iter().all(|b| is_hex_digit(*b))
}

/// Whether the words give the bytes of a log, in an even number of digits.
#[tactic(auto, unfolding(crate::specs::Boots::is_boot))]
pub fn is_boot(words: &[Part<'_>]) -> bool
    ensures { result ≡ is_boot words.now }
{
    match words {
        [first, digits] => {
            if !first.is(b"boot") || digits.bytes().is_empty() {
                return false;
            }
            if digits.bytes().len() % 2 != 0 {
                return false;
            }
            all_hex(digits.bytes())
        }
        _ => false,
    }
}
