//! Typed expressions.

ghost use Rattle.std.specs.Prelude.{◌≡◌, List, slice_get, [], ◌∷◌, ◌++◌, ◌+◌, ◌-◌, ◌*◌, ◌^◌, ◌<◌, ◌≤◌, IsTrue, IfOk, All, map, length, vec_len, sum_by};
ghost use Rattle.std.specs.List.{list_all, flat_map};
ghost use Rattle.tie_expr.specs.Word.{Word};
ghost use Rattle.tie_expr.specs.Operators.{one_width, two_width, two_widths_agree};
ghost use Rattle.tie_expr.specs.Meaning.{constant_meaning, input_meaning, one_meaning, two_meaning, choose_meaning, join_meaning, part_meaning, resize_meaning, lookup_meaning, repeat_meaning, OneWidth, select_meaning, mul_meaning};
ghost use Rattle.tie_expr.specs.Size.{node_weight, wide_weight, table_weight, one_weight, two_weight, size_limit};
ghost use Rattle.tie_expr.specs.Substitute.{IsOver, substitute_meaning, substitute_inputs, substitute_size};
ghost use Rattle.tie_expr.specs.Tree.{meaning, inputs, size, typed};

use crate::bits::Bits;
use crate::eval::eval;
use crate::memory::NoMemory;
use crate::node::Node;
use crate::ops::{Op1, Op2};
use crate::replace::{copy, replace};
use crate::weight::{NODE_WEIGHT, TABLE_WEIGHT, WIDE_WEIGHT, weigh, weight_of_one, weight_of_two};
use sqlite_items::{Boxed, Items};
use std::alloc::Global;
use std::marker::Model;

/// A typed expression: it has a width of 1 to 128 bits, and a value of this width for each environment,
/// a list of the inputs' values.
#[derive(Drop)]
pub struct Expr {
    width: u8,
    weight: u64,
    node: Node,
}

impl Model for Expr {
    ghost use Rattle.std.specs.Prelude.{◌≡◌, ◌<◌, ◌≤◌, IsTrue};
    ghost use Rattle.tie_expr.specs.declared.node.Node.{Node};

    ghost Value = { Node };

    ghost use Rattle.tie_expr.specs.contracts.node.Node as kept;
    ghost use Rattle.std.specs.Coded.{codes};

    ghost coded = { Prim.hlevel (codes, kept.the_row.coded) };

    ghost use Rattle.tie_expr.specs.Tree as tree;
    ghost use Rattle.tie_expr.specs.Size.{size_limit};

    ghost view = { λ e. e.node };

    ghost invariant = { λ e. (e.width ≡ (tree.meaning e.node).width) × (0 < e.width) × (e.width ≤ 128) × (e.weight ≡ tree.size e.node) × (e.weight ≤ size_limit) × IsTrue (tree.typed e.node) };
}

/// The width of an operator's result on an operand of a width.
fn width_of_one(op: Op1, width: u8) -> u8
    ensures { result ≡ one_width op width }
{
    match op {
        Op1::Not => width,
        _ => 1,
    }
}

/// The width of an operator's result where the first operand has a width.
fn width_of_two(op: Op2, width: u8) -> u8
    ensures { result ≡ two_width op width }
{
    match op {
        Op2::Eq | Op2::Lt => 1,
        _ => width,
    }
}

/// The sum of the sizes of some expressions, which the limit bounds.
fn total_weight(arms: &[Expr]) -> u64
    requires { sum_by size arms.now ≤ size_limit }
    ensures { result ≡ sum_by size arms.now }
{
    let mut total = 0;
    for arm in arms {
        total += arm.weight;
    }
    total
}

/// Looks at each expression, since only a value in hand is known to be typed.
fn see_each(arguments: &[Expr])
    ensures { IsTrue (list_all typed arguments.now) }
{
    for argument in arguments {
        let _tree = argument.tree();
    }
}

/// The trees of some expressions.
fn into_nodes(alloc: Global, arms: Vec<Expr>) -> Result<Items<Node>, NoMemory>
    ensures same { IfOk result (λ nodes. nodes ≡ arms.items) }
    ensures typed { IfOk result (λ nodes. IsTrue (list_all typed nodes)) }
{
    let mut nodes = Items::new(alloc);
    for arm in arms {
        nodes.push(arm.into_node())?;
    }
    Ok(nodes)
}

impl Expr {
    /// The count of bits of its value, from 1 to 128.
    pub fn width(&self) -> u8
        ensures is { result ≡ (meaning self.now).width }
        ensures low { 0 < result }
        ensures high { result ≤ 128 }
        ensures below { (env : List Word) → (meaning self.now).at env < 2 ^ result }
    {
        self.width
    }

    /// The sum of the weights of its nodes.
    pub fn size(&self) -> u64
        ensures is { result ≡ size self.now }
        ensures limit { result ≤ size_limit }
    {
        self.weight
    }

    /// Its value where the inputs have the values of `env`.
    pub fn eval(&self, env: &[Bits]) -> Bits
        ensures { result ≡ record { width = (meaning self.now).width; value = (meaning self.now).at env.now } }
    {
        eval(&self.node, env)
    }

    /// The tree that it keeps.
    pub(crate) fn tree(&self) -> &Node
        ensures is { result.now ≡ self.now }
        ensures typed { IsTrue (typed result.now) }
    {
        &self.node
    }

    /// The tree alone.
    fn into_node(self) -> Node
        ensures is { result ≡ self }
        ensures typed { IsTrue (typed result) }
        ensures low { 0 < (meaning result).width }
        ensures high { (meaning result).width ≤ 128 }
    {
        let Expr {
            width: _,
            weight: _,
            node,
        } = self;
        node
    }

    /// A value.
    pub fn constant(alloc: Global, value: Bits) -> Result<Expr, NoMemory>
        ensures means { IfOk result (λ e. meaning e ≡ constant_meaning value) }
        ensures inputs { IfOk result (λ e. inputs e ≡ []) }
        ensures size { IfOk result (λ e. size e ≡ node_weight) }
    {
        let _ = alloc;
        Ok(Expr {
            width: value.width(),
            weight: NODE_WEIGHT,
            node: Node::Constant(value),
        })
    }

    /// The value at `index` in the environment.
    pub fn input(alloc: Global, index: u32, width: u8) -> Result<Expr, NoMemory>
        requires low { 0 < width }
        requires high { width ≤ 128 }
        ensures means { IfOk result (λ e. meaning e ≡ input_meaning index width) }
        ensures inputs { IfOk result (λ e. inputs e ≡ record { index = index; width = width } ∷ []) }

        // Where the environment holds a value that fits at this place, that is the input's value.
        ensures held { IfOk result (λ e. (env : List Word) (x : Word) → slice_get env index ≡ Some x → x.value < 2 ^ width → (meaning e).at env ≡ x.value) }
        ensures size { IfOk result (λ e. size e ≡ node_weight) }
    {
        let _ = alloc;
        Ok(Expr {
            width,
            weight: NODE_WEIGHT,
            node: Node::Input { index, width },
        })
    }

    /// An operator on one operand.
    pub fn one(alloc: Global, op: Op1, a: Expr) -> Result<Expr, NoMemory>
        requires { one_weight op + size a ≤ size_limit }
        ensures means { IfOk result (λ e. meaning e ≡ one_meaning op (meaning a)) }
        ensures inputs { IfOk result (λ e. inputs e ≡ inputs a) }
        ensures size { IfOk result (λ e. size e ≡ one_weight op + size a) }
    {
        let width = width_of_one(op, a.width);
        let weight = weight_of_one(op) + a.weight;
        let operand = Boxed::new(alloc, a.into_node())?;
        Ok(Expr {
            width,
            weight,
            node: Node::One { op, operand },
        })
    }

    /// An operator on two operands, of one width except for shifts.
    pub fn two(alloc: Global, op: Op2, a: Expr, b: Expr) -> Result<Expr, NoMemory>
        requires widths { IsTrue (two_widths_agree op (meaning a).width (meaning b).width) }
        requires limit { two_weight op + size a + size b ≤ size_limit }
        ensures means { IfOk result (λ e. meaning e ≡ two_meaning op (meaning a) (meaning b)) }
        ensures inputs { IfOk result (λ e. inputs e ≡ inputs a ++ inputs b) }
        ensures size { IfOk result (λ e. size e ≡ two_weight op + size a + size b) }
    {
        let width = width_of_two(op, a.width);
        let weight = weight_of_two(op) + a.weight + b.weight;
        let left = Boxed::new(alloc, a.into_node())?;
        let right = Boxed::new(alloc, b.into_node())?;
        Ok(Expr {
            width,
            weight,
            node: Node::Two { op, left, right },
        })
    }

    /// `a` where `c` isn't 0, else `b`.
    pub fn choose(alloc: Global, c: Expr, a: Expr, b: Expr) -> Result<Expr, NoMemory>
        requires widths { (meaning a).width ≡ (meaning b).width }
        requires limit { node_weight + size c + size a + size b ≤ size_limit }
        ensures means { IfOk result (λ e. meaning e ≡ choose_meaning (meaning c) (meaning a) (meaning b)) }
        ensures inputs { IfOk result (λ e. inputs e ≡ inputs c ++ inputs a ++ inputs b) }
        ensures size { IfOk result (λ e. size e ≡ node_weight + size c + size a + size b) }
    {
        let width = a.width;
        let weight = NODE_WEIGHT + c.weight + a.weight + b.weight;
        let condition = Boxed::new(alloc, c.into_node())?;
        let then = Boxed::new(alloc, a.into_node())?;
        let otherwise = Boxed::new(alloc, b.into_node())?;
        let node = Node::Choose {
            condition,
            then,
            otherwise,
        };
        Ok(Expr {
            width,
            weight,
            node,
        })
    }

    /// `high` above `low`.
    pub fn join(alloc: Global, high: Expr, low: Expr) -> Result<Expr, NoMemory>
        requires widths { (meaning high).width + (meaning low).width ≤ 128 }
        requires limit { node_weight + size high + size low ≤ size_limit }
        ensures means { IfOk result (λ e. meaning e ≡ join_meaning (meaning high) (meaning low)) }
        ensures inputs { IfOk result (λ e. inputs e ≡ inputs high ++ inputs low) }
        ensures size { IfOk result (λ e. size e ≡ node_weight + size high + size low) }
    {
        let width = high.width + low.width;
        let weight = NODE_WEIGHT + high.weight + low.weight;
        let high = Boxed::new(alloc, high.into_node())?;
        let low = Boxed::new(alloc, low.into_node())?;
        Ok(Expr {
            width,
            weight,
            node: Node::Join { high, low },
        })
    }

    /// The bits of `a` from `low` to `high`, both included.
    pub fn part(alloc: Global, a: Expr, high: u8, low: u8) -> Result<Expr, NoMemory>
        requires order { low ≤ high }
        requires within { high < (meaning a).width }
        requires limit { node_weight + size a ≤ size_limit }
        ensures means { IfOk result (λ e. meaning e ≡ part_meaning (meaning a) high low) }
        ensures inputs { IfOk result (λ e. inputs e ≡ inputs a) }
        ensures size { IfOk result (λ e. size e ≡ node_weight + size a) }
    {
        let width = high - low + 1;
        let weight = NODE_WEIGHT + a.weight;
        let of = Boxed::new(alloc, a.into_node())?;
        Ok(Expr {
            width,
            weight,
            node: Node::Part { of, high, low },
        })
    }

    /// `a` in another width: filled with zeros, or cut.
    pub fn resize(alloc: Global, a: Expr, width: u8) -> Result<Expr, NoMemory>
        requires low { 0 < width }
        requires high { width ≤ 128 }
        requires limit { node_weight + size a ≤ size_limit }
        ensures means { IfOk result (λ e. meaning e ≡ resize_meaning (meaning a) width) }
        ensures inputs { IfOk result (λ e. inputs e ≡ inputs a) }
        ensures size { IfOk result (λ e. size e ≡ node_weight + size a) }
    {
        let weight = NODE_WEIGHT + a.weight;
        let of = Boxed::new(alloc, a.into_node())?;
        Ok(Expr {
            width,
            weight,
            node: Node::Resize { of, width },
        })
    }

    /// The entry whose number is `index`, 0 beyond them.
    pub fn lookup(
        alloc: Global,
        index: Expr,
        entries: Vec<u128>,
        width: u8,
    ) -> Result<Expr, NoMemory>
        requires low { 0 < width }
        requires high { width ≤ 128 }
        requires few { vec_len entries ≤ 256 }
        requires fit { All (λ x. x < 2 ^ width) entries.items }
        requires limit { table_weight + size index ≤ size_limit }
        ensures means { IfOk result (λ e. meaning e ≡ lookup_meaning (meaning index) entries.items width) }
        ensures inputs { IfOk result (λ e. inputs e ≡ inputs index) }
        ensures size { IfOk result (λ e. size e ≡ table_weight + size index) }
    {
        let weight = TABLE_WEIGHT + index.weight;
        let index = Boxed::new(alloc, index.into_node())?;
        let entries = Items::from_vec(entries);
        Ok(Expr {
            width,
            weight,
            node: Node::Lookup {
                index,
                entries,
                width,
            },
        })
    }

    /// Copies of `a` behind each other.
    pub fn repeat(alloc: Global, a: Expr, count: u8) -> Result<Expr, NoMemory>
        requires some { 0 < count }
        requires widths { (meaning a).width * count ≤ 128 }
        requires limit { wide_weight + size a ≤ size_limit }
        ensures means { IfOk result (λ e. meaning e ≡ repeat_meaning (meaning a) count) }
        ensures inputs { IfOk result (λ e. inputs e ≡ inputs a) }
        ensures size { IfOk result (λ e. size e ≡ wide_weight + size a) }
    {
        let width = a.width * count;
        let weight = WIDE_WEIGHT + a.weight;
        let of = Boxed::new(alloc, a.into_node())?;
        Ok(Expr {
            width,
            weight,
            node: Node::Repeat { of, count },
        })
    }

    /// The arm whose number is `s`.
    pub fn select(alloc: Global, s: Expr, arms: Vec<Expr>) -> Result<Expr, NoMemory>
        requires few { (meaning s).width ≤ 4 }
        requires count { vec_len arms ≡ 2 ^ (meaning s).width }
        requires widths { OneWidth (map meaning arms.items) }
        requires limit { wide_weight + size s + sum_by size arms.items ≤ size_limit }
        ensures means { IfOk result (λ e. meaning e ≡ select_meaning (meaning s) (map meaning arms.items)) }
        ensures inputs { IfOk result (λ e. inputs e ≡ inputs s ++ flat_map inputs arms.items) }
        ensures size { IfOk result (λ e. size e ≡ wide_weight + size s + sum_by size arms.items) }
    {
        let width = arms[0].width;
        let weight = WIDE_WEIGHT + s.weight + total_weight(&arms);
        let number = Boxed::new(alloc, s.into_node())?;
        let arms = into_nodes(alloc, arms)?;
        Ok(Expr {
            width,
            weight,
            node: Node::Select { number, arms },
        })
    }

    /// The product in the sum of the widths, of two's complement values where `signed` is 1.
    pub fn mul(alloc: Global, a: Expr, b: Expr, signed: Expr) -> Result<Expr, NoMemory>
        requires flag { (meaning signed).width ≡ 1 }
        requires widths { (meaning a).width + (meaning b).width ≤ 128 }
        requires limit { wide_weight + size a + size b + size signed ≤ size_limit }
        ensures means { IfOk result (λ e. meaning e ≡ mul_meaning (meaning a) (meaning b) (meaning signed)) }
        ensures inputs { IfOk result (λ e. inputs e ≡ inputs a ++ inputs b ++ inputs signed) }
        ensures size { IfOk result (λ e. size e ≡ wide_weight + size a + size b + size signed) }
    {
        let width = a.width + b.width;
        let weight = WIDE_WEIGHT + a.weight + b.weight + signed.weight;
        let left = Boxed::new(alloc, a.into_node())?;
        let right = Boxed::new(alloc, b.into_node())?;
        let signed = Boxed::new(alloc, signed.into_node())?;
        Ok(Expr {
            width,
            weight,
            node: Node::Mul {
                left,
                right,
                signed,
            },
        })
    }

    /// The same expression once more.
    pub fn copy(&self, alloc: Global) -> Result<Expr, NoMemory>
        ensures means { IfOk result (λ e. meaning e ≡ meaning self.now) }
        ensures inputs { IfOk result (λ e. inputs e ≡ inputs self.now) }
        ensures size { IfOk result (λ e. size e ≡ size self.now) }
    {
        let node = copy(alloc, &self.node)?;
        Ok(Expr {
            width: self.width,
            weight: self.weight,
            node,
        })
    }

    /// The expression with a copy of `arguments[i]` in place of each input i.
    pub fn substitute(&self, alloc: Global, arguments: &[Expr]) -> Result<Expr, NoMemory>
        requires over { IsOver (map (λ a. (meaning a).width) arguments.now) (inputs self.now) }
        requires limit { substitute_size (size self.now) (inputs self.now) (map size arguments.now) ≤ size_limit }
        ensures means { IfOk result (λ e. meaning e ≡ substitute_meaning (meaning self.now) (map meaning arguments.now)) }
        ensures inputs { IfOk result (λ e. inputs e ≡ substitute_inputs (inputs self.now) (map inputs arguments.now)) }
        ensures size { IfOk result (λ e. size e ≡ substitute_size (size self.now) (inputs self.now) (map size arguments.now)) }
    {
        see_each(arguments);
        let node = replace(alloc, &self.node, arguments)?;
        let weight = weigh(&node);
        Ok(Expr {
            width: self.width,
            weight,
            node,
        })
    }
}
