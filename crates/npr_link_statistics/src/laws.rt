//! The laws of structures that grew, over their definitions alone. The function does nothing, and its
//! contract is the law.

ghost use Rattle.npr_base.specs.Numbering.{IsFormed};
ghost use Rattle.npr_link_statistics.specs.{Coherent.{IsCoherent}, Grown.{Grown as Parts, growing}};
ghost use Rattle.std.specs.Prelude.{length};

use crate::grown::Grown;

/// What is read is coherent, and what is coherent is read again as it is.
pub fn law_coherent<G: Grown>()
    ensures read { (g : Parts G.Number) → IsFormed (growing G.Number.width.none (length G.names.fields)) g → IsCoherent G.Number.width.none (length G.names.fields) g }
    ensures again { (g : Parts G.Number) → IsCoherent G.Number.width.none (length G.names.fields) g → IsFormed (growing G.Number.width.none (length G.names.fields)) g }
{}
