ghost use Rattle.std.specs.Prelude.{◌≡◌};
ghost use Rattle.tie_front.specs.RuleNames.{lex_name, rule_name};

use tie_lexer::LexRule;

/// Why a TIE text is refused: a fault of its tokens, of its grammar, or a broken rule by its number, 1 to 31.
#[derive(Clone, Copy, Debug, PartialEq, Eq)]
pub enum TieRule {
    Lex(LexRule),
    Parse,
    Rule(u8),
}

/// The rule and the place at which a text is refused, or want of memory.
#[derive(Clone, Copy, Debug, PartialEq, Eq)]
pub enum TieRefusal {
    Fault { rule: TieRule, place: u32 },
    NoMemory,
}

/// The name of a rule as it is printed; none for a number that no rule has.
pub fn rule_name(rule: TieRule) -> &'static str
    ensures { result.now ≡ rule_name rule }
{
    match rule {
        TieRule::Lex(rule) => lex_name(rule),
        TieRule::Parse => "Parse",
        TieRule::Rule(number) => name_of(number),
    }
}

fn lex_name(rule: LexRule) -> &'static str
    ensures { result.now ≡ lex_name rule }
{
    match rule {
        LexRule::BadByte => "BadByte",
        LexRule::OpenComment => "OpenComment",
        LexRule::BadLiteral => "BadLiteral",
    }
}

fn name_of(number: u8) -> &'static str
    ensures { result.now ≡ rule_name (TieRule.Rule number) }
{
    match number {
        0 | 1 => "Doubled",
        2 => "ShortName",
        3 => "TooMany",
        4 => "TooManyOpcodes",
        5 => "TooManyArgs",
        6 => "WidthRange",
        7 => "DepthRange",
        8 => "LiteralRange",
        9 => "TableCount",
        10 => "ImmRange",
        11 => "FormatWidth",
        12 => "SlotCount",
        13 => "SlotList",
        14 => "SlotOpcode",
        15 => "LocalDoubled",
        16 => "UnknownName",
        17 => "Direction",
        18 => "Recursion",
        19 => "ArgCount",
        20 => "UsedBefore",
        21 => "AssignedTwice",
        22 => "NotAssigned",
        23 => "SelectRange",
        24 => "ArgSize",
        25 => "SizeRange",
        26 => "ScheduleTwice",
        27 => "ScheduleOrder",
        28 => "FormatTooWide",
        29 => "StateTwice",
        30 => "QueueTwice",
        31 => "TooLarge",
        32..=255 => "",
    }
}
