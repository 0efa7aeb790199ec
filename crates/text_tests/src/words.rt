use std::alloc::{AllocError, Global};
use std::test::Fail;
use tie_words::{Command, command_of};

// Words, and the number of the first wrong one where they aren't accepted.
#[derive(Clone, Copy)]
struct Row {
    words: &'static [&'static str],
    wrong: Option<u32>,
}

const ROWS: [Row; 17] = [
    Row {
        words: &[],
        wrong: Some(0),
    },
    Row {
        words: &["run", "p"],
        wrong: Some(0),
    },
    Row {
        words: &["exec"],
        wrong: Some(1),
    },
    Row {
        words: &["exec", ""],
        wrong: Some(1),
    },
    Row {
        words: &["exec", "p", ""],
        wrong: Some(2),
    },
    Row {
        words: &["exec", "p", "t", "q"],
        wrong: Some(3),
    },
    Row {
        words: &["check", "t", "q"],
        wrong: Some(2),
    },
    Row {
        words: &["check", "t"],
        wrong: None,
    },
    Row {
        words: &["exec", "p", "t"],
        wrong: None,
    },
    Row {
        words: &["asm", "t"],
        wrong: Some(2),
    },
    Row {
        words: &["asm", "t", "s"],
        wrong: None,
    },
    Row {
        words: &["asm", "t", "s", "q"],
        wrong: Some(3),
    },
    Row {
        words: &["dis", "", "p"],
        wrong: Some(1),
    },
    Row {
        words: &["dis", "t", "p"],
        wrong: None,
    },
    Row {
        words: &["ref", "n"],
        wrong: None,
    },
    Row {
        words: &["strict"],
        wrong: Some(1),
    },
    Row {
        words: &["strict", "n", "q"],
        wrong: Some(2),
    },
];

fn words_of(alloc: Global, row: &Row) -> Result<Vec<String>, AllocError> {
    let mut words = Vec::new(alloc);
    for word in row.words {
        words.push(String::from_str(alloc, word)?)?;
    }
    Ok(words)
}

#[test]
fn rows(rt: HostRuntime) -> Result<(), Fail> {
    for (number, row) in ROWS.iter().enumerate() {
        let words = words_of(rt.alloc(), row)?;
        assert!(rt; command_of(&words).err() == row.wrong, "row {number}");
    }
    Ok(())
}

#[test]
fn files_of_asm(rt: HostRuntime) -> Result<(), Fail> {
    let row = Row {
        words: &["asm", "t", "s"],
        wrong: None,
    };
    let words = words_of(rt.alloc(), &row)?;
    let named = match command_of(&words) {
        Ok(Command::Asm { tie, source }) => tie == "t" && source == "s",
        _ => false,
    };
    assert!(rt; named);
    Ok(())
}

#[test]
fn files_of_dis(rt: HostRuntime) -> Result<(), Fail> {
    let row = Row {
        words: &["dis", "t", "p"],
        wrong: None,
    };
    let words = words_of(rt.alloc(), &row)?;
    let named = match command_of(&words) {
        Ok(Command::Dis { tie, hex }) => tie == "t" && hex == "p",
        _ => false,
    };
    assert!(rt; named);
    Ok(())
}

#[test]
fn files_of_exec(rt: HostRuntime) -> Result<(), Fail> {
    let row = Row {
        words: &["exec", "p", "t"],
        wrong: None,
    };
    let words = words_of(rt.alloc(), &row)?;
    let named = match command_of(&words) {
        Ok(Command::ExecTie { hex, tie }) => hex == "p" && tie == "t",
        _ => false,
    };
    assert!(rt; named);
    Ok(())
}

#[test]
fn file_of_strict(rt: HostRuntime) -> Result<(), Fail> {
    let row = Row {
        words: &["strict", "n"],
        wrong: None,
    };
    let words = words_of(rt.alloc(), &row)?;
    let named = match command_of(&words) {
        Ok(Command::Strict { net }) => net == "n",
        _ => false,
    };
    assert!(rt; named);
    Ok(())
}
