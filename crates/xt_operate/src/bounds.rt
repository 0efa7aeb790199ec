//! The operands of a part with the numbers in their fields.

ghost use Rattle.std.specs.Prelude.{◌≡◌, ◌+◌, ◌<◌, ◌≤◌, [], ◌∷◌, ◌++◌, All, IsTrue, length, map, slice_get, Some};
ghost use Rattle.tie_desc.specs.Invariant.{IsDescription};
ghost use Rattle.tie_desc.specs.Slots.{access, links_of};
ghost use Rattle.tie_desc.specs.Spelling.{part_fits};
ghost use Rattle.xt_operate.specs.Bounds.{IsBound, arg_bounds, bounds, link_bound};

use arrayvec::ArrayVec;
use tie_desc::{Access, Code, Desc, Operand, Part, args_of, links_of};

/// An operand with the number in its field, 0 where it has none.
#[derive(Clone, Copy, Debug, PartialEq, Eq)]
pub struct Bound {
    pub access: Access,
    pub number: u8,
}

impl Default for Bound {
    ghost use Rattle.std.specs.Prelude.{◌≡◌};
    ghost use Rattle.tie_desc.specs.Slots.{core_read};

    ghost is_default = { λ bound. bound ≡ record { access = core_read; number = 0 } };

    fn default() -> Bound {
        Bound {
            access: Access::default(),
            number: 0,
        }
    }
}

/// At most eleven operands: three arguments and eight links.
pub type Bounds = ArrayVec<Bound, 11>;

fn push_args(args: &[Access], fields: &[u8], out: &mut Bounds)
    requires { length out.old.items + length args.now ≤ 11 }
    ensures items { out.new.items ≡ out.old.items ++ arg_bounds args.now fields.now }
    ensures few { length out.new.items ≤ length out.old.items + length args.now }
{
    match (args, fields) {
        ([access, args @ ..], [number, others @ ..]) => {
            out.push(Bound {
                access: *access,
                number: *number,
            });
            push_args(args, others, out);
        }
        ([], _) => {}
        ([_arg, _more @ ..], []) => {}
    }
}

fn link_bound(link: &Operand) -> Bound
    ensures { result ≡ link_bound link.now }
{
    Bound {
        access: Access {
            kind: link.kind,
            reads: link.reads,
            writes: link.writes,
            use_m: link.use_m,
            def_m: link.def_m,
        },
        number: 0,
    }
}

fn push_links(links: &[Operand], out: &mut Bounds)
    requires { length out.old.items + length links.now ≤ 11 }
    ensures { out.new.items ≡ out.old.items ++ map link_bound links.now }
{
    for link in links {
        out.push(link_bound(link));
    }
}

// The links of a code, of which there are at most eight.
fn few_links(desc: &Desc, code: Code) -> &[Operand]
    ensures links { result.now ≡ links_of desc.now code }
    ensures few { length result.now ≤ 8 }
{
    desc.facts();
    links_of(desc, code)
}

/// The operands of a part: its arguments with their fields, then its links.
pub fn bounds_of(desc: &Desc, part: &Part) -> Bounds
    ensures value { result.items ≡ bounds desc.now part.now }
    ensures have { IsTrue (part_fits desc.now part.now) → All (IsBound desc.now) result.items }
{
    desc.facts();
    let mut out = Bounds::new();
    push_args(args_of(desc, part.code).as_slice(), &part.fields, &mut out);
    push_links(few_links(desc, part.code), &mut out);
    out
}
