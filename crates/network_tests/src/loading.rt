use net_load::{load_net, tie_files};
use net_parts::Net;
use std::test::Fail;
use tie_files::Refusal;
use tie_io::MemShelf;
use tie_report::net_parts;

// A network file, and what is said of the network.
struct Row {
    net: &'static str,
    said: &'static str,
}

// The files that the rows name: an image, bytes of an item, one byte of it, no bytes, 65 bytes, and an extension.
const FILES: [(&str, &str); 6] = [
    ("a", "00 20 06 00 51 00"),
    ("s", "00 00 00 2A"),
    ("b", "2A"),
    ("g", "0G"),
    (
        "l",
        "0000000000000000000000000000000000000000000000000000000000000000000000000000000000000000000000000000000000000000000000000000000000",
    ),
    (
        "t",
        "queue IN 32 in operation POP {out AR d} {in IN} {assign d = IN;}",
    ),
];

const ROWS: [Row; 11] = [
    Row {
        net: "version = 1\n[[core]]\nname = 'A'\nimage = 'a'\n",
        said: "no source",
    },
    Row {
        net: "version = 1\n[[core]]\nname = 'A'\ntie = 't'\nimage = 'a'\n[[source]]\nname = 'S'\nitems = 's'\n[[queue]]\nname = 'Q'\ncapacity = 1\nfrom = 'S'\nto = 'A.IN'\n",
        said: "S: [42]",
    },
    Row {
        net: "x =",
        said: "n: Toml at text",
    },
    Row {
        net: "version = 1\n[[core]]\nname = 'A'\nimage = 'g'\n",
        said: "n: Hex at core[0].image",
    },
    Row {
        net: "version = 1\n[[core]]\nname = 'A'\nimage = 'l'\nmemory = 64\n",
        said: "n: Image at core[0].image",
    },
    Row {
        net: "version = 1\n[[core]]\nname = 'A'\ntie = 't'\nimage = 'm'\n",
        said: "m: unread",
    },
    Row {
        net: "version = 1\n[[core]]\nname = 'A'\ntie = 'g'\nimage = 'm'\n",
        said: "g: no TIE",
    },
    Row {
        net: "version = 1\n[[core]]\nname = 'A'\ntie = 't'\nimage = 'a'\n[[source]]\nname = 'S'\nitems = 'm'\n",
        said: "n: Unwired at core[0].IN",
    },
    Row {
        net: "version = 1\n[[core]]\nname = 'A'\ntie = 't'\nimage = 'a'\n[[source]]\nname = 'S'\nitems = 'm'\n[[queue]]\nname = 'Q'\ncapacity = 1\nfrom = 'S'\nto = 'A.IN'\n",
        said: "m: unread",
    },
    Row {
        net: "version = 1\n[[core]]\nname = 'A'\ntie = 't'\nimage = 'a'\n[[source]]\nname = 'S'\nitems = 'g'\n[[queue]]\nname = 'Q'\ncapacity = 1\nfrom = 'S'\nto = 'A.IN'\n",
        said: "n: Hex at source[0].items",
    },
    Row {
        net: "version = 1\n[[core]]\nname = 'A'\ntie = 't'\nimage = 'a'\n[[source]]\nname = 'S'\nitems = 'b'\n[[queue]]\nname = 'Q'\ncapacity = 1\nfrom = 'S'\nto = 'A.IN'\n",
        said: "n: Item at source[0].items",
    },
];

fn items(rt: &HostRuntime, net: &Net) -> Result<String, Fail> {
    let Some(source) = net.sources.first() else {
        return Ok(format!(in rt.alloc(); "no source")?);
    };
    let name = source.name.as_str();
    let items = source.items.as_slice();
    Ok(format!(in rt.alloc(); "{name}: {items:?}")?)
}

fn why(rt: &HostRuntime, refusal: &Refusal) -> Result<String, Fail> {
    match refusal {
        Refusal::ReadFault { name } => {
            let name = name.as_str();
            Ok(format!(in rt.alloc(); "{name}: unread")?)
        }
        Refusal::TieRefused { name, .. } => {
            let name = name.as_str();
            Ok(format!(in rt.alloc(); "{name}: no TIE")?)
        }
        Refusal::NetRefused { name, rule, key } => {
            let name = name.as_str();
            let key = key.as_str();
            Ok(format!(in rt.alloc(); "{name}: {rule:?} at {key}")?)
        }
        _ => Ok(format!(in rt.alloc(); "another refusal")?),
    }
}

fn said(rt: &HostRuntime, net: &str) -> Result<String, Fail> {
    let mut shelf = MemShelf::new(rt.alloc(), Vec::new(rt.alloc()));
    for (name, text) in FILES.iter() {
        shelf.add(name, text.as_bytes()).ok().ok_or("no memory")?;
    }
    shelf.add("n", net.as_bytes()).ok().ok_or("no memory")?;
    match load_net(rt.alloc(), "n", &mut shelf) {
        Ok(net) => items(rt, &net),
        Err(refusal) => why(rt, &refusal),
    }
}

#[test]
fn rows(rt: HostRuntime) -> Result<(), Fail> {
    for row in ROWS.iter() {
        assert_eq!(rt; said(&rt, row.net)?.as_str(), row.said);
    }
    Ok(())
}

#[test]
fn no_network_file(rt: HostRuntime) -> Result<(), Fail> {
    let mut shelf = MemShelf::new(rt.alloc(), Vec::new(rt.alloc()));
    let refusal = load_net(rt.alloc(), "n", &mut shelf)
        .err()
        .ok_or("a network")?;
    assert_eq!(rt; why(&rt, &refusal)?.as_str(), "n: unread");
    Ok(())
}
