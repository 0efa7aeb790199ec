ghost use Rattle.std.specs.Prelude.{◌≡◌, ◌<◌, IfOk, length, string_bytes};
ghost use Rattle.tie_top.specs.Printing.{line_of, hex_rule_word, asm_rule_word, net_rule_word};

use asm_law::tie_front;
use asm_lines::AsmRule;
use hex_text::HexRule;
use load_law::{net_toml, tie_files};
use net_toml::NetRule;
use std::alloc::{AllocError, Global};
use tie_files::Refusal;
use tie_front::{TieRule, rule_name};

/// The line of a refusal, with its LF.
pub fn line_of(alloc: Global, refusal: &Refusal) -> Result<String, AllocError>
    ensures text { IfOk result (λ line. string_bytes line ≡ line_of refusal.now) }
    ensures some { IfOk result (λ line. 0 < length (string_bytes line)) }
{
    match refusal {
        Refusal::Usage { word } => format!(in alloc; "usage: word {word}\n"),
        Refusal::ReadFault { name } => {
            let name = name.as_str();
            format!(in alloc; "read fault: {name}\n")
        }
        Refusal::TooLong { name } => {
            let name = name.as_str();
            format!(in alloc; "too long: {name}\n")
        }
        Refusal::TieRefused { name, rule, place } => {
            tie_line(alloc, name.as_str(), *rule, *place)
        }
        Refusal::AsmRefused {
            name,
            rule,
            line,
            column,
        } => asm_line(alloc, name.as_str(), *rule, *line, *column),
        Refusal::HexRefused { name, rule, place } => {
            hex_line(alloc, name.as_str(), *rule, *place)
        }
        Refusal::NetRefused { name, rule, key } => {
            net_line(alloc, name.as_str(), *rule, key.as_str())
        }
        Refusal::NoMemory => String::from_str(alloc, "no memory\n"),
    }
}

fn tie_line(alloc: Global, name: &str, rule: TieRule, place: u32) -> Result<String, AllocError>
    ensures { IfOk result (λ line. string_bytes line ≡ line_of (Refusal.TieRefused name.now rule place)) }
{
    let rule = rule_name(rule);
    let mut line = format!(in alloc; "tie refused: {name}: ")?;
    line.push_str(rule)?;
    write!(line, " at {place}\n")?;
    Ok(line)
}

fn asm_line(
    alloc: Global,
    name: &str,
    rule: AsmRule,
    at_line: u32,
    column: u32,
) -> Result<String, AllocError>
    ensures { IfOk result (λ line. string_bytes line ≡ line_of (Refusal.AsmRefused name.now rule at_line column)) }
{
    let rule = asm_rule_word(rule);
    let mut line = format!(in alloc; "asm refused: {name}: ")?;
    line.push_str(rule)?;
    write!(line, " at {at_line}:{column}\n")?;
    Ok(line)
}

fn hex_line(alloc: Global, name: &str, rule: HexRule, place: u32) -> Result<String, AllocError>
    ensures { IfOk result (λ line. string_bytes line ≡ line_of (Refusal.HexRefused name.now rule place)) }
{
    let rule = hex_rule_word(rule);
    let mut line = format!(in alloc; "hex refused: {name}: ")?;
    line.push_str(rule)?;
    write!(line, " at {place}\n")?;
    Ok(line)
}

fn net_line(alloc: Global, name: &str, rule: NetRule, key: &str) -> Result<String, AllocError>
    ensures { IfOk result (λ line. string_bytes line ≡ line_of (Refusal.NetRefused name.now rule key.now)) }
{
    let rule = net_rule_word(rule);
    let mut line = format!(in alloc; "net refused: {name}: ")?;
    line.push_str(rule)?;
    write!(line, " at {key}\n")?;
    Ok(line)
}

fn hex_rule_word(rule: HexRule) -> &'static str
    ensures { result.now ≡ hex_rule_word rule }
{
    match rule {
        HexRule::BadHex => "BadHex",
        HexRule::OddHex => "OddHex",
        HexRule::LongHex => "LongHex",
    }
}

fn asm_rule_word(rule: AsmRule) -> &'static str
    ensures { result.now ≡ asm_rule_word rule }
{
    match rule {
        AsmRule::BadToken => "BadToken",
        AsmRule::Syntax => "Syntax",
        AsmRule::UnknownMnemonic => "UnknownMnemonic",
        AsmRule::OperandCount => "OperandCount",
        AsmRule::DoubledLabel => "DoubledLabel",
        AsmRule::OperandKind => "OperandKind",
        AsmRule::OperandRange => "OperandRange",
        AsmRule::UnknownLabel => "UnknownLabel",
        AsmRule::SlotCount => "SlotCount",
        AsmRule::SlotOpcode => "SlotOpcode",
        AsmRule::SameDest => "SameDest",
        AsmRule::TooLong => "TooLong",
        AsmRule::Reach => "Reach",
    }
}

fn net_rule_word(rule: NetRule) -> &'static str
    ensures { result.now ≡ net_rule_word rule }
{
    match rule {
        NetRule::Toml => "Toml",
        NetRule::Key => "Key",
        NetRule::Version => "Version",
        NetRule::Range => "Range",
        NetRule::TooMany => "TooMany",
        NetRule::Name => "Name",
        NetRule::Hex => "Hex",
        NetRule::Image => "Image",
        NetRule::End => "End",
        NetRule::Twice => "Twice",
        NetRule::Width => "Width",
        NetRule::Unwired => "Unwired",
        NetRule::Item => "Item",
        NetRule::Core => "Core",
    }
}
