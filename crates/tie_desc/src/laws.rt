//! Laws of descriptions, for whoever decodes, encodes or lists bundles.

ghost use Rattle.std.specs.Prelude.{◌≡◌, ◌-◌, ◌^◌, ◌<◌, ◌≤◌, ◌≢◌, All, Some, length, position, slice_get};
ghost use Rattle.std.specs.Str.{bytes_eq};
ghost use Rattle.tie_desc.specs.Operands.{limit};
ghost use Rattle.tie_desc.specs.Slots.{format_place, longest, place_of, slots_space};
ghost use Rattle.tie_desc.specs.Invariant.{IsDescription, IsSlot};

/// The formats of one width have different numbers.
pub fn format_numbers_differ()
    ensures { (d i j f g : _) → IsDescription d → slice_get d.formats i ≡ Some f → slice_get d.formats j ≡ Some g
        → f.width ≡ g.width → f.number ≡ g.number → i ≡ j }
{}

/// A format is the first of its width and number.
pub fn format_is_first()
    ensures { (d i f : _) → IsDescription d → slice_get d.formats i ≡ Some f → format_place f.width f.number d.formats ≡ i }
{}

/// The number of a format has four bits.
pub fn format_number_fits()
    ensures { (d : _) → IsDescription d → All (λ f. f.number < 16) d.formats }
{}

/// There are at most 32 formats.
pub fn few_formats()
    ensures { (d : _) → IsDescription d → length d.formats ≤ 32 }
{}

/// A code stands at the place of its first.
pub fn code_is_first()
    ensures { (d s k c : _) → IsSlot d s → slice_get s.codes k ≡ Some c → place_of c s.codes ≡ k }
{}

/// No code has more than three fields.
pub fn few_fields()
    ensures { (d codes : _) → IsDescription d → longest d codes ≤ 3 }
{}

/// The number in a field has four bits.
pub fn field_fits()
    ensures { (d kind : _) → IsDescription d → limit d kind ≤ 16 }
{}

/// The slots of a format fit behind its first eight bits.
pub fn slots_fit_width()
    ensures { (d : _) → IsDescription d → All (λ f. slots_space d f.slots ≤ 2 ^ (f.width - 8)) d.formats }
{}

/// An operation is the one of its name.
pub fn op_is_named()
    ensures { (d i op : _) → IsDescription d → slice_get d.ops i ≡ Some op → position (λ other. bytes_eq other.name op.name) d.ops ≡ Some i }
{}

/// A format is the one of its name.
pub fn format_is_named()
    ensures { (d i f : _) → IsDescription d → slice_get d.formats i ≡ Some f → position (λ other. bytes_eq other.name f.name) d.formats ≡ Some i }
{}

/// An input queue is the one of its name.
pub fn input_is_named()
    ensures { (d i q : _) → IsDescription d → slice_get d.ins i ≡ Some q → position (λ other. bytes_eq other.name q.name) d.ins ≡ Some i }
{}

/// An output queue is the one of its name.
pub fn output_is_named()
    ensures { (d i q : _) → IsDescription d → slice_get d.outs i ≡ Some q → position (λ other. bytes_eq other.name q.name) d.outs ≡ Some i }
{}

/// A file is the one of its short name.
pub fn file_is_named()
    ensures { (d i f : _) → IsDescription d → slice_get d.files i ≡ Some f → position (λ other. bytes_eq other.short f.short) d.files ≡ Some i }
{}

/// No operation has the name of a format.
pub fn op_and_format_differ()
    ensures { (d i j op f : _) → IsDescription d → slice_get d.ops i ≡ Some op → slice_get d.formats j ≡ Some f → op.name ≢ f.name }
{}
