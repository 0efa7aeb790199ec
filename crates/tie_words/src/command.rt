ghost use Rattle.std.specs.Prelude.{◌≡◌, ◌≤◌, ◌∷◌, codes, map, string_bytes, MatchResult, IfSome};
ghost use Rattle.tie_words.specs.Words.{Accepts, WrongAt};
ghost use Rattle.tie_words.specs.Reading.{seen, wrong_from};

/// A command, with those of its words that aren't fixed: names of files.
#[derive(Clone, Copy, Debug)]
pub enum Command<'a> {
    /// Judges a TIE text and lists what it declares.
    Check { tie: &'a str },
    /// Assembles a source for a TIE text.
    Asm { tie: &'a str, source: &'a str },
    /// Lists the image in a file of hexadecimal text by a TIE text.
    Dis { tie: &'a str, hex: &'a str },
    /// Runs the image in a file of hexadecimal text.
    Exec { hex: &'a str },
    /// Runs it with the extension of a TIE text.
    ExecTie { hex: &'a str, tie: &'a str },
    /// Runs a network whose queues have no bound.
    Ref { net: &'a str },
    /// Runs a network whose queues have their capacities.
    Strict { net: &'a str },
}

/// The command of the words, or the number of the first word that is wrong or missing.
pub fn command_of(words: &[String]) -> Result<Command<'_>, u32>
    ensures { MatchResult result
        (λ command. Accepts (map string_bytes words.now) (seen command))
        (λ place. WrongAt (map string_bytes words.now) place) }
{
    let Some((word, names)) = words.split_first() else {
        return Err(0);
    };
    match word.as_str() {
        "check" => check_of(names),
        "asm" => asm_of(names),
        "dis" => dis_of(names),
        "exec" => exec_of(names),
        "ref" => ref_of(names),
        "strict" => strict_of(names),
        _ => Err(0),
    }
}

fn check_of(names: &[String]) -> Result<Command<'_>, u32>
    ensures { MatchResult result
        (λ command. Accepts (codes "check" ∷ map string_bytes names.now) (seen command))
        (λ place. WrongAt (codes "check" ∷ map string_bytes names.now) place) }
{
    match wrong_name(names, 1, 1) {
        Some(number) => Err(1 + number),
        None => Ok(Command::Check {
            tie: names[0].as_str(),
        }),
    }
}

fn asm_of(names: &[String]) -> Result<Command<'_>, u32>
    ensures { MatchResult result
        (λ command. Accepts (codes "asm" ∷ map string_bytes names.now) (seen command))
        (λ place. WrongAt (codes "asm" ∷ map string_bytes names.now) place) }
{
    match wrong_name(names, 2, 2) {
        Some(number) => Err(1 + number),
        None => Ok(Command::Asm {
            tie: names[0].as_str(),
            source: names[1].as_str(),
        }),
    }
}

fn dis_of(names: &[String]) -> Result<Command<'_>, u32>
    ensures { MatchResult result
        (λ command. Accepts (codes "dis" ∷ map string_bytes names.now) (seen command))
        (λ place. WrongAt (codes "dis" ∷ map string_bytes names.now) place) }
{
    match wrong_name(names, 2, 2) {
        Some(number) => Err(1 + number),
        None => Ok(Command::Dis {
            tie: names[0].as_str(),
            hex: names[1].as_str(),
        }),
    }
}

fn exec_of(names: &[String]) -> Result<Command<'_>, u32>
    ensures { MatchResult result
        (λ command. Accepts (codes "exec" ∷ map string_bytes names.now) (seen command))
        (λ place. WrongAt (codes "exec" ∷ map string_bytes names.now) place) }
{
    if let Some(number) = wrong_name(names, 1, 2) {
        return Err(1 + number);
    }
    let hex = names[0].as_str();
    if names.len() == 1 {
        Ok(Command::Exec { hex })
    } else {
        Ok(Command::ExecTie {
            hex,
            tie: names[1].as_str(),
        })
    }
}

fn ref_of(names: &[String]) -> Result<Command<'_>, u32>
    ensures { MatchResult result
        (λ command. Accepts (codes "ref" ∷ map string_bytes names.now) (seen command))
        (λ place. WrongAt (codes "ref" ∷ map string_bytes names.now) place) }
{
    match wrong_name(names, 1, 1) {
        Some(number) => Err(1 + number),
        None => Ok(Command::Ref {
            net: names[0].as_str(),
        }),
    }
}

fn strict_of(names: &[String]) -> Result<Command<'_>, u32>
    ensures { MatchResult result
        (λ command. Accepts (codes "strict" ∷ map string_bytes names.now) (seen command))
        (λ place. WrongAt (codes "strict" ∷ map string_bytes names.now) place) }
{
    match wrong_name(names, 1, 1) {
        Some(number) => Err(1 + number),
        None => Ok(Command::Strict {
            net: names[0].as_str(),
        }),
    }
}

// Of the names of a command that takes so many at least and at most, the number of the first one that is empty or one too
// many, or that is missing.
fn wrong_name(names: &[String], least: u32, most: u32) -> Option<u32>
    requires order { least ≤ most }
    requires few { most ≤ 1000 }
    ensures found { result ≡ wrong_from least most 0 (map string_bytes names.now) }
    ensures small { IfSome result (λ number. number ≤ most) }
{
    let mut number = 0;
    for name in names {
        if number == most || name.as_str().is_empty() {
            return Some(number);
        }
        number += 1;
    }
    if number < least { Some(number) } else { None }
}
