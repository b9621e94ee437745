//! What the cluster can do today.
ghost use Rattle.std.specs.Prelude.{◌≡◌};
ghost use Rattle.script_text.specs.Built as spec;

use crate::forms::Form;
use crate::verbs::{NodeVerb, NumberVerb};
use cluster_model::Shape;

/// Whether a cluster of this shape can be made today.
pub fn is_built_shape(shape: &Shape) -> bool
    ensures { result ≡ spec.is_built_shape shape.now }
{
    shape.nodes == 1
}

/// Whether the cluster can do today what a line says.
pub fn is_built(form: &Form<'_>) -> bool
    ensures { result ≡ spec.is_built form.now }
{
    match form {
        Form::Session(..) | Form::Submit(..) => true,
        Form::Numbered(verb, _) => is_built_number(*verb),
        Form::OfNode(verb, _) => is_built_node(*verb),
        Form::Lone(_) | Form::OfSlab(..) | Form::Evict(..) | Form::Timeout(_) | Form::Until(..) => {
            false
        }
    }
}

fn is_built_number(verb: NumberVerb) -> bool
    ensures { result ≡ spec.is_built_number verb }
{
    matches!(verb, NumberVerb::Drain)
}

fn is_built_node(verb: NodeVerb) -> bool
    ensures { result ≡ spec.is_built_node verb }
{
    matches!(verb, NodeVerb::Turn)
}
