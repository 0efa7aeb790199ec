//! The value at a key of a table.

ghost use Rattle.std.specs.Prelude.{◌≡◌, ◌++◌, Bool, IfOk, Err, map, pos};
ghost use Rattle.std.specs.Option.{option_map, option_and_then};
ghost use Rattle.toml.specs.Data.{get_member, as_str, as_integer, as_array};
ghost use Rattle.toml.specs.View.{view, table_view, array_view};
ghost use Rattle.net_parts.specs.Network.{IsDump};
ghost use Rattle.net_toml.specs.Broken.{Gives, GivesAs, Names};
ghost use Rattle.net_toml.specs.Values.{text_at, optional_text_at, integer_at, integer_or, pair_at, part_of, dump_at, two_of, tables_of, tables_at};

use crate::keys::key_at;
use crate::refusal::{NetRefusal, NetRule};
use crate::text::Text;
use std::alloc::{AllocError, Global};
use toml::{Table, Value};

/// The value at a key.
pub fn member<'a>(table: &'a Table, key: &str) -> Option<&'a Value>
    ensures { option_map (λ v. view v.now) result ≡ get_member key.now (table_view table.now) }
{
    table.get(key)
}

fn text_member<'a>(table: &'a Table, key: &str) -> Option<&'a str>
    ensures { option_map (λ s. s.now) result ≡ option_and_then as_str (get_member key.now (table_view table.now)) }
{
    match member(table, key) {
        Some(value) => value.as_str(),
        None => None,
    }
}

/// The text at a key of the table at a place.
pub fn text_at<'a>(
    alloc: Global,
    table: &'a Table,
    place: &str,
    key: &str,
) -> Result<&'a str, NetRefusal>
    ensures { GivesAs (λ s. s.now) result (text_at (place.now ++ key.now) (get_member key.now (table_view table.now))) }
{
    match text_member(table, key) {
        Some(text) => Ok(text),
        None => Err(NetRefusal::Fault {
            rule: NetRule::Key,
            key: key_at(alloc, place, key)?,
        }),
    }
}

/// A copy of it.
pub fn owned_text_at(
    alloc: Global,
    table: &Table,
    place: &str,
    key: &str,
) -> Result<Text, NetRefusal>
    ensures { Gives result (text_at (place.now ++ key.now) (get_member key.now (table_view table.now))) }
{
    let text = text_at(alloc, table, place, key)?;
    Ok(Text::copy_of(alloc, text)?)
}

/// The same, if something stands there.
pub fn optional_text_at(
    alloc: Global,
    table: &Table,
    place: &str,
    key: &str,
) -> Result<Option<Text>, NetRefusal>
    ensures { Gives result (optional_text_at (place.now ++ key.now) (get_member key.now (table_view table.now))) }
{
    match member(table, key) {
        None => Ok(None),
        Some(value) => match value.as_str() {
            Some(text) => Ok(Some(Text::copy_of(alloc, text)?)),
            None => Err(NetRefusal::Fault {
                rule: NetRule::Key,
                key: key_at(alloc, place, key)?,
            }),
        },
    }
}

fn integer_member(table: &Table, key: &str) -> Option<i64>
    ensures { result ≡ option_and_then as_integer (get_member key.now (table_view table.now)) }
{
    match member(table, key) {
        Some(value) => value.as_integer(),
        None => None,
    }
}

/// The integer at a key of the table at a place.
pub fn integer_at(alloc: Global, table: &Table, place: &str, key: &str) -> Result<i64, NetRefusal>
    ensures { Gives result (integer_at (place.now ++ key.now) (get_member key.now (table_view table.now))) }
{
    match integer_member(table, key) {
        Some(value) => Ok(value),
        None => Err(NetRefusal::Fault {
            rule: NetRule::Key,
            key: key_at(alloc, place, key)?,
        }),
    }
}

/// The same; this one where nothing stands there.
pub fn integer_or(
    alloc: Global,
    absent: u32,
    table: &Table,
    place: &str,
    key: &str,
) -> Result<i64, NetRefusal>
    ensures { Gives result (integer_or absent (place.now ++ key.now) (get_member key.now (table_view table.now))) }
{
    match member(table, key) {
        None => Ok(absent as i64),
        Some(value) => match value.as_integer() {
            Some(value) => Ok(value),
            None => Err(NetRefusal::Fault {
                rule: NetRule::Key,
                key: key_at(alloc, place, key)?,
            }),
        },
    }
}

fn two_of(array: &Vec<Value>) -> Option<(i64, i64)>
    ensures { result ≡ two_of (array_view array.now) }
{
    match array.as_slice() {
        [a, b] => match (a.as_integer(), b.as_integer()) {
            (Some(x), Some(y)) => Some((x, y)),
            _ => None,
        },
        _ => None,
    }
}

fn two_integers(value: &Value) -> Option<(i64, i64)>
    ensures { result ≡ option_and_then two_of (as_array (view value.now)) }
{
    match value.as_array() {
        Some(array) => two_of(array),
        None => None,
    }
}

fn part_of(memory: u32, start: i64, len: i64) -> Option<(u32, u32)>
    ensures value { result ≡ part_of memory start len }
    ensures within { IsDump memory result }
{
    match (u32::try_from(start), u32::try_from(len)) {
        (Ok(start), Ok(len))
            if 1 <= len && len <= 4096 && start <= memory && len <= memory - start => Some((
            start, len,
        )),
        _ => None,
    }
}

/// The part of a memory at a key, if something stands there.
pub fn dump_at(
    alloc: Global,
    memory: u32,
    table: &Table,
    place: &str,
    key: &str,
) -> Result<Option<(u32, u32)>, NetRefusal>
    ensures within { IfOk result (IsDump memory) }
    ensures value { Gives result (dump_at memory (place.now ++ key.now) (get_member key.now (table_view table.now))) }
{
    let Some(value) = member(table, key) else {
        return Ok(None);
    };
    let Some((start, len)) = two_integers(value) else {
        return Err(NetRefusal::Fault {
            rule: NetRule::Key,
            key: key_at(alloc, place, key)?,
        });
    };
    match part_of(memory, start, len) {
        Some(part) => Ok(Some(part)),
        None => Err(NetRefusal::Fault {
            rule: NetRule::Range,
            key: key_at(alloc, place, key)?,
        }),
    }
}

/// The tables of an array, if each item is one.
fn tables_of<'a>(alloc: Global, array: &'a Vec<Value>) -> Result<Option<Vec<&'a Table>>, AllocError>
    ensures { IfOk result (λ o. option_map (λ v. map (λ t. table_view t.now) v.items) o ≡ tables_of (array_view array.now)) }
{
    let mut tables = Vec::new(alloc);
    for item in array {
        match item.as_table() {
            Some(table) => tables.push(table)?,
            None => return Ok(None),
        }
    }
    Ok(Some(tables))
}

/// The array of tables at a key of the top table; where nothing stands there, none.
pub fn tables_at<'a>(
    alloc: Global,
    table: &'a Table,
    key: &str,
) -> Result<Vec<&'a Table>, NetRefusal>
    ensures { GivesAs (λ v. map (λ t. table_view t.now) v.items) result (tables_at key.now (get_member key.now (table_view table.now))) }
{
    let Some(value) = member(table, key) else {
        return Ok(Vec::new(alloc));
    };
    if let Some(array) = value.as_array() {
        if let Some(tables) = tables_of(alloc, array)? {
            return Ok(tables);
        }
    }
    Err(NetRefusal::Fault {
        rule: NetRule::Key,
        key: key_at(alloc, "", key)?,
    })
}
