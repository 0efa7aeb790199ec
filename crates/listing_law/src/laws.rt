//! The law of listings and assembly.

ghost use Rattle.std.specs.Prelude.{◌≡◌, ◌<◌, ℕ, List, Ok, All, IsTrue};
ghost use Rattle.std.specs.List.{list_all};
ghost use Rattle.tie_desc.specs.Names.{is_word};
ghost use Rattle.tie_desc.specs.Invariant.{IsDescription};
ghost use Rattle.listing_words_law.specs.xt_dis.Listing.{Lists};
ghost use Rattle.xt_asm.specs.Assembly.{assembly};
ghost use Rattle.listing_words_law.specs.HasWords.{HasWords};

use tie_desc::{Desc, FileDecl, FormatDecl, OpDecl};
use xt_mnemonics::{named_again, rebuilt};

/// Where bytes have a listing and the listing an image, the image is those bytes.
pub fn assembled_listing()
    ensures { (d bytes text image : _) → IsDescription d → HasWords d → All (λ b. b < 256) bytes → Lists d 0 bytes text → assembly d text ≡ Ok image → image ≡ bytes }
{
    rebuilt();
    named_again();
}

fn op_names(ops: &[OpDecl])
    ensures { IsTrue (list_all (λ o. is_word o.name) ops.now) }
{
    for op in ops {
        let _ = op.name.as_bytes();
    }
}

fn format_names(formats: &[FormatDecl])
    ensures { IsTrue (list_all (λ f. is_word f.name) formats.now) }
{
    for format in formats {
        let _ = format.name.as_bytes();
    }
}

fn short_names(files: &[FileDecl])
    ensures { IsTrue (list_all (λ f. is_word f.short) files.now) }
{
    for file in files {
        let _ = file.short.as_bytes();
    }
}

/// The names of every description are words.
pub fn has_words(desc: &Desc)
    ensures { HasWords desc.now }
{
    op_names(desc.ops.as_slice());
    format_names(desc.formats.as_slice());
    short_names(desc.files.as_slice());
}

/// The same law for a description at hand.
pub fn assembled_listing_of(desc: &Desc, bytes: &[u8])
    ensures { (text image : _) → Lists desc.now 0 bytes.now text → assembly desc.now text ≡ Ok image → image ≡ bytes.now }
{
    desc.facts();
    has_words(desc);
    let _ = bytes.first();
    assembled_listing();
}
