//! What holds of scripts whatever they say.
ghost use Rattle.std.specs.Prelude.{◌≡◌, ◌↔◌, ℕ, List, Some, Ok, Err};
ghost use Rattle.cluster_model.specs.Fits.{IsFit};
ghost use Rattle.cluster_model.specs.declared.scripts.Script as script;
ghost use Rattle.script_text.specs.declared.forms.Form as form;
ghost use Rattle.script_text.specs.declared.whys.BadScript as bad;
ghost use Rattle.script_text.specs.Grammar.{IsForm};
ghost use Rattle.script_text.specs.Reading.{form_of, script_of};
ghost use Rattle.script_text.specs.Scripts.{IsScript, IsBadScript};

/// A line is read as exactly what the grammar says of it. It does nothing when it is run.
pub fn form_laws()
    ensures { (line : List ℕ) (f : form.Form) → (form_of line ≡ Some f) ↔ IsForm line f }
{}

/// Bytes are read as exactly the script that they are, and else refused at the first line that is bad. What
/// is read can be asked of a cluster. It does nothing when it is run.
pub fn script_laws()
    ensures accepted { (bytes : List ℕ) (s : script.Script) → (script_of bytes ≡ Ok s) ↔ IsScript bytes s }
    ensures refused { (bytes : List ℕ) (e : bad.BadScript) → (script_of bytes ≡ Err e) ↔ IsBadScript bytes e }
    ensures fits { (bytes : List ℕ) (s : script.Script) → IsScript bytes s → IsFit s }
{}
