//! The registers that a bundle writes.

ghost use Rattle.std.specs.Prelude.{◌≡◌, ◌+◌, ◌*◌, ◌≤◌, ◌<◌, ◌++◌, [], ◌∷◌, length};
ghost use Rattle.std.specs.List.{list_any, flat_map};
ghost use Rattle.tie_desc.specs.Names as names;
ghost use Rattle.tie_desc.specs.Spots as spots;
ghost use Rattle.tie_desc.specs.Spelling as spelling;

use std::marker::Model;
use tie_desc::{Access, Desc, Kind, Part, Spot, args_of, same_spot};

/// At most twelve places.
#[derive(Drop)]
struct Places {
    found: [Spot; 12],
    count: usize,
}

impl Model for Places {
    ghost use Rattle.std.specs.Prelude.{List, take, ◌≤◌};
    ghost use Rattle.tie_desc.specs.declared.bundle.Spot.{Spot};

    ghost Value = { List Spot };

    ghost view = { λ p. take p.count p.found };

    ghost invariant = { λ p. p.count ≤ 12 };
}

impl Places {
    fn new() -> Places
        ensures { result ≡ [] }
    {
        Places {
            found: [Spot::Sar; 12],
            count: 0,
        }
    }

    fn push(&mut self, spot: Spot)
        requires { length self.old < 12 }
        ensures { self.new ≡ self.old ++ spot ∷ [] }
    {
        self.found[self.count] = spot;
        self.count += 1;
    }

    fn all_differ(&self) -> bool
        ensures { result ≡ names.all_differ spots.same_spot self.now }
    {
        all_differ(&self.found[..self.count])
    }
}

fn has_spot(spot: Spot, others: &[Spot]) -> bool
    ensures { result ≡ list_any (spots.same_spot spot) others.now }
{
    others.iter().any(|other| same_spot(spot, *other))
}

fn all_differ(found: &[Spot]) -> bool
    ensures { result ≡ names.all_differ spots.same_spot found.now }
{
    match found {
        [] => true,
        [spot, others @ ..] => !has_spot(*spot, others) && all_differ(others),
    }
}

/// The place that a register argument stands for: none for an immediate.
fn push_spot(kind: Kind, number: u8, out: &mut Places)
    requires room { length out.old + 1 ≤ 12 }
    ensures items { out.new ≡ out.old ++ spots.spot_of kind number }
    ensures few { length out.new ≤ length out.old + 1 }
{
    match kind {
        Kind::Ar => out.push(Spot::Ar(number)),
        Kind::File(file) => out.push(Spot::File(file, number)),
        Kind::Range(_) => {}
        Kind::State(state) => out.push(Spot::State(state)),
        Kind::InQueue(queue) => out.push(Spot::In(queue)),
        Kind::OutQueue(queue) => out.push(Spot::Out(queue)),
    }
}

fn push_written(args: &[Access], fields: &[u8], out: &mut Places)
    requires room { length out.old + length fields.now ≤ 12 }
    ensures items { out.new ≡ out.old ++ spots.arg_spots (λ a. a.writes) args.now fields.now }
    ensures few { length out.new ≤ length out.old + length fields.now }
{
    match (args, fields) {
        ([arg, args @ ..], [field, others @ ..]) => {
            if arg.writes {
                push_spot(arg.kind, *field, out);
            }
            push_written(args, others, out);
        }
        ([], _) => {}
        ([_arg, _more @ ..], []) => {}
    }
}

fn written(desc: &Desc, parts: &[Part]) -> Places
    requires { length parts.now ≤ 4 }
    ensures { result ≡ flat_map (spots.written_registers desc.now) parts.now }
{
    let mut out = Places::new();
    for part in parts {
        push_written(args_of(desc, part.code).as_slice(), &part.fields, &mut out);
    }
    out
}

/// Whether the parts write no register twice.
pub fn writes_differ(desc: &Desc, parts: &[Part]) -> bool
    requires { length parts.now ≤ 4 }
    ensures { result ≡ spelling.writes_differ desc.now parts.now }
{
    written(desc, parts).all_differ()
}
