//! The description of a processor's extension, its bundles, and how a bundle is spelled.
//!
//! A `Desc` holds what a TIE text declares, in the order of the text. What every description keeps stands in
//! `specs/Invariant.antt`, the bytes of a bundle in `specs/Spelling.antt`.
#![tactic(auto)]

mod bundle;
mod declarations;
mod desc;
mod formats;
mod laws;
mod name;
mod names;
mod operands;
mod sequence;

pub use bundle::{Bundle, Fetched, Image, Kit, Part, Spot};
pub use declarations::{Access, FileDecl, Kind, OpDecl, Operand, QueueDecl, RangeDecl, StateDecl};
pub use desc::Desc;
pub use formats::{Code, FormatDecl, SlotCore, SlotDecl};
pub use laws::{
    code_is_first, few_fields, few_formats, field_fits, file_is_named, format_is_first,
    format_is_named, format_number_fits, format_numbers_differ, input_is_named,
    op_and_format_differ, op_is_named, output_is_named, slots_fit_width,
};
pub use name::Name;
pub use names::{format_named, input_named, op_named, output_named};
pub use operands::{args_of, kind_width, limit, links_of, range_value, same_spot};
pub use sequence::Sequence;
