//! Laws of the texts: each function only reads its arguments, which is linear in them, and its contract is the law.

ghost use Rattle.std.specs.Prelude.{◌≡◌};
ghost use Rattle.trace_text.specs.Traces.{trace_text, metaslab_trace_text};

use crate::held::{journals_held, metaslabs_held};
use ms_model::Journals;

/// The texts of different journals differ.
pub fn traces_fix_journals(a: &Journals, b: &Journals)
    ensures { trace_text a.now ≡ trace_text b.now → a.now ≡ b.now }
{
    journals_held(a);
    journals_held(b);
}

/// The same of a trace without classes and keeper: it fixes the opened group and the journals of the metaslabs.
pub fn metaslab_traces_fix_journals(a: &Journals, b: &Journals)
    ensures { metaslab_trace_text a.now ≡ metaslab_trace_text b.now → (a.now.opened ≡ b.now.opened) × (a.now.metaslabs ≡ b.now.metaslabs) }
{
    metaslabs_held(a);
    metaslabs_held(b);
}
