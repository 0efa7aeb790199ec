//! The law of listings.

ghost use Rattle.std.specs.Prelude.{◌≡◌};
ghost use Rattle.tie_desc.specs.Invariant.{IsDescription};
ghost use Rattle.xt_dis.specs.Listing.{Lists};

/// No bytes have two listings.
pub fn one_listing()
    ensures { (d at bytes a b : _) → IsDescription d → Lists d at bytes a → Lists d at bytes b → a ≡ b }
{}
