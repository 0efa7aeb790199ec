//! The first broken rule.

ghost use Rattle.std.specs.Prelude.{◌≡◌};
ghost use Rattle.std.specs.HashMap.{get_by_text};
ghost use Rattle.asm_lines.specs.Answers.{Gives};
ghost use Rattle.asm_rules.specs.Labels as layout;
ghost use Rattle.asm_rules.specs.Judge.{refused, laid};
ghost use Rattle.asm_rules.specs.Rules as spec;

use crate::breach::breach;
use crate::judge::{Test, judged_in};
use crate::labels::Labels;
use crate::sizes::size;
use asm_lines::{AsmRefusal, AsmRule, Line, Statement};
use std::alloc::Global;
use tie_desc::Desc;

fn fault_at(rule: AsmRule, line: &Line, column: u32) -> AsmRefusal
    ensures { result ≡ AsmRefusal.Fault rule line.now.number column }
{
    AsmRefusal::Fault {
        rule,
        line: line.number,
        column,
    }
}

/// Refuses the first line that breaks a rule.
fn check_rule(
    alloc: Global,
    desc: &Desc,
    labels: &Labels,
    rule: AsmRule,
    lines: &[Line],
) -> Result<(), AsmRefusal>
    ensures { Gives (λ _. tt) result (refused (spec.breach_from desc.now (λ q. get_by_text labels.now q) rule 0 lines.now)) }
{
    for (i, line) in lines.iter().enumerate() {
        if let Some(column) = breach(alloc, desc, labels, rule, i, line)? {
            return Err(fault_at(rule, line, column));
        }
    }
    Ok(())
}

fn check_rules(
    alloc: Global,
    desc: &Desc,
    labels: &Labels,
    rules: &[AsmRule],
    lines: &[Line],
) -> Result<(), AsmRefusal>
    ensures { Gives (λ _. tt) result (refused (spec.breach_by desc.now (λ q. get_by_text labels.now q) rules.now lines.now)) }
{
    for rule in rules {
        check_rule(alloc, desc, labels, *rule, lines)?;
    }
    Ok(())
}

/// The rules that look at lines alone, in their order.
static LINE_RULES: [AsmRule; 9] = [
    AsmRule::UnknownMnemonic,
    AsmRule::OperandCount,
    AsmRule::DoubledLabel,
    AsmRule::OperandKind,
    AsmRule::OperandRange,
    AsmRule::UnknownLabel,
    AsmRule::SlotCount,
    AsmRule::SlotOpcode,
    AsmRule::SameDest,
];

/// Refuses the least of the rules that look at lines alone that is broken, at its first line and column. Takes time linear
/// in the lines, but for looking up labels.
pub fn check_lines(
    alloc: Global,
    desc: &Desc,
    labels: &Labels,
    lines: &[Line],
) -> Result<(), AsmRefusal>
    ensures { Gives (λ _. tt) result (refused (spec.breach_by desc.now (λ q. get_by_text labels.now q) spec.line_rules lines.now)) }
{
    check_rules(alloc, desc, labels, &LINE_RULES, lines)
}

fn begins_at(statement: &Statement) -> u32
    ensures { result ≡ spec.begins_at statement.now }
{
    match statement {
        Statement::Nothing => 0,
        Statement::Alone(operation) => operation.column,
        Statement::Wide { column, .. } => *column,
        Statement::Values { column, .. } => *column,
        Statement::Align { column, .. } => *column,
    }
}

/// The addresses of the lines; refuses the first statement that ends behind 65,536 bytes.
pub fn lay_out(alloc: Global, desc: &Desc, lines: &[Line]) -> Result<Vec<u32>, AsmRefusal>
    ensures { Gives (λ v. v.items) result (laid desc.now lines.now) }
{
    let mut found = Vec::new(alloc);
    let mut at = 0u32;
    for line in lines {
        let end = u128::from(at) + size(desc, at, &line.statement);
        if end > 65536 {
            return Err(fault_at(AsmRule::TooLong, line, begins_at(&line.statement)));
        }
        found.push(at)?;
        at = end as u32;
    }
    Ok(found)
}

/// Refuses the first target that its instruction doesn't reach, where the lines stand at these addresses.
pub fn check_reach(
    desc: &Desc,
    labels: &Labels,
    addresses: &[u32],
    lines: &[Line],
) -> Result<(), AsmRefusal>
    ensures { Gives (λ _. tt) result (refused (spec.unreached_in desc.now (layout.find_in addresses.now (λ q. get_by_text labels.now q)) addresses.now lines.now)) }
{
    for (i, line) in lines.iter().enumerate() {
        if i >= addresses.len() {
            return Ok(());
        }
        let test = Test::Reach(addresses[i]);
        if let Some(column) = judged_in(desc, labels, addresses, test, &line.statement) {
            return Err(fault_at(AsmRule::Reach, line, column));
        }
    }
    Ok(())
}
