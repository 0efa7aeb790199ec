//! Descriptions of one TIE text assemble a source alike: they differ in the form of their operations' results alone, and no
//! image depends on results.
//!
//! The function of this file has no code: it is a law, and its clause states it for all texts and sources.
#![tactic(auto)]

ghost use Rattle.std.specs.Prelude.{◌≡◌, ℕ, List};
ghost use Rattle.tie_desc.specs.Description.{Description};
ghost use Rattle.tie_front.specs.Front.{IsDescriptionOf};
ghost use Rattle.xt_asm.specs.Assembly.{assembly};

pub use tie_front;

/// By all descriptions of a text a source has the same image, or the same first fault.
pub fn one_image()
    ensures { (text source : List ℕ) (d e : Description) → IsDescriptionOf text d → IsDescriptionOf text e → assembly d source ≡ assembly e source }
{}
