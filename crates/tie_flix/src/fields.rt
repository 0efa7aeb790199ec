//! The fields of a part.

ghost use Rattle.std.specs.Prelude.{◌≡◌, ◌<◌, ◌≤◌, length};
ghost use Rattle.tie_desc.specs.Slots as slots;
ghost use Rattle.tie_desc.specs.Spelling as spelling;
ghost use Rattle.tie_flix.specs.Reading as reading;

use tie_desc::{Access, Code, Desc, Part, args_of, limit};

/// Whether each field is a number of its argument, and 0 where there is none.
pub fn fields_fit(desc: &Desc, args: &[Access], fields: &[u8]) -> bool
    ensures { result ≡ spelling.fields_fit desc.now args.now fields.now }
{
    match (args, fields) {
        ([], []) => true,
        ([], [field, others @ ..]) => *field == 0 && fields_fit(desc, &[], others),
        ([_arg, _more @ ..], []) => false,
        ([arg, args @ ..], [field, others @ ..]) => {
            *field < limit(desc, arg.kind) && fields_fit(desc, args, others)
        }
    }
}

/// Whether the fields of a part fit its code.
pub fn part_fits(desc: &Desc, part: &Part) -> bool
    ensures fits { result ≡ reading.fits desc.now part.now }
    ensures three { length part.now.fields ≡ 3 }
{
    fields_fit(desc, args_of(desc, part.code).as_slice(), &part.fields)
}

/// The count of the fields of a slot: those of the code that has the most.
#[tactic(auto, unfolding(tie_desc::specs::Slots::longest))]
pub fn longest(desc: &Desc, codes: &[Code]) -> usize
    ensures { result ≡ slots.longest desc.now codes.now }
{
    match codes {
        [] => 0,
        [code, others @ ..] => args_of(desc, *code).len().max(longest(desc, others)),
    }
}

/// How many numbers the bits hold in which a slot of this count of codes names one.
#[tactic(auto, unfolding(tie_desc::specs::Slots::code_space, tie_desc::specs::Slots::code_bits))]
pub fn code_space(codes: usize) -> u64
    ensures value { result ≡ slots.code_space codes }
    ensures some { 0 < result }
    ensures small { result ≤ 16 }
{
    if codes <= 1 {
        1
    } else if codes <= 2 {
        2
    } else if codes <= 4 {
        4
    } else if codes <= 8 {
        8
    } else {
        16
    }
}
