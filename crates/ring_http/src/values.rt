//! JSON of what was answered: values of `serde_json`, each written on a line.
ghost use Rattle.std.specs.Prelude.{◌≡◌, ◌≤◌, ◌++◌, Some, false, IfOk, OnOk, length};
ghost use Rattle.std.specs.Str.{IsUtf8};
ghost use Rattle.serde_json.specs.Data.{array, depth, string};
ghost use Rattle.serde_json.specs.Read.{max_depth, read};
ghost use Rattle.serde_json.specs.View.{items_of, view};
ghost use Rattle.serde_json.specs.Written.{has_float};
ghost use Rattle.ring_http.specs.Json.{algorithm_value, each, group_json, group_value, groups_json, groups_value, leader_value, line_of, natural, node_value, term_value, terms_from};

use crate::picture::GroupPicture;
use crate::text::put;
use http_server::Rope;
use ring_any::Any;
use ring_id::{GroupName, NodeId, NodeNo};
use serde_json::{Value, json};
use std::alloc::{AllocError, Global};

/// Appends a line of JSON: the names of all groups, and the place of the answer. The line reads
/// back as the same value. Fails only if an allocation fails.
pub fn put_names(
    alloc: Global,
    place: usize,
    names: &[GroupName],
    out: &mut Rope,
) -> Result<(), AllocError>
    ensures text { OnOk result (out.new.items ≡ out.old.items ++ groups_json place names.now) }
    ensures reads { OnOk result
        (read (groups_json place names.now) ≡ Some (groups_value place names.now)) }
{
    let value = groups_to_json(alloc, place, names)?;
    put_line(alloc, &value, out)
}

/// Appends a line of JSON: a group, and the place of the last answer. The line reads back as the
/// same value. Fails only if an allocation fails.
pub fn put_group(
    alloc: Global,
    place: usize,
    group: &GroupPicture,
    out: &mut Rope,
) -> Result<(), AllocError>
    ensures text { OnOk result (out.new.items ≡ out.old.items ++ group_json place group.now) }
    ensures reads { OnOk result
        (read (group_json place group.now) ≡ Some (group_value place group.now)) }
{
    let value = group_to_json(alloc, place, group)?;
    put_line(alloc, &value, out)
}

// Appends a value on a line.
fn put_line(alloc: Global, value: &Value, out: &mut Rope) -> Result<(), AllocError>
    requires plain { has_float (view value.now) ≡ false }
    requires shallow { depth (view value.now) ≤ max_depth }
    ensures text { OnOk result (out.new.items ≡ out.old.items ++ line_of (view value.now)) }
    ensures reads { OnOk result (read (line_of (view value.now)) ≡ Some (view value.now)) }
{
    let text = value.to_vec(alloc)?;
    put(&text, out)?;
    put(b"\n", out)
}

// The names of all groups, and a place.
fn groups_to_json(alloc: Global, place: usize, names: &[GroupName]) -> Result<Value, AllocError>
    ensures { IfOk result (λ value. view value ≡ groups_value place names.now) }
{
    json!(in alloc; {"place": place, "groups": names_to_json(alloc, names)?})
}

// A group, and a place.
fn group_to_json(alloc: Global, place: usize, group: &GroupPicture) -> Result<Value, AllocError>
    ensures { IfOk result (λ value. view value ≡ group_value place group.now) }
{
    json!(in alloc; {
        "place": place,
        "group": text_of(group.name.bytes()),
        "algorithm": algorithm_to_json(alloc, group.algorithm)?,
        "members": members_to_json(alloc, group.members.as_slice())?,
        "terms": terms_to_json(alloc, group.leaders.as_slice())?,
        "informed": numbers_to_json(alloc, &group.informed)?
    })
}

// A list of names.
fn names_to_json(alloc: Global, names: &[GroupName]) -> Result<Value, AllocError>
    ensures { IfOk result (λ value. view value ≡ each string names.now) }
{
    let mut list = Vec::new(alloc);
    for name in names {
        list.push(Value::try_from_str(alloc, text_of(name.bytes()))?)?;
    }
    Ok(Value::Array(list))
}

// The word of an algorithm, or null.
fn algorithm_to_json(alloc: Global, algorithm: Option<Any>) -> Result<Value, AllocError>
    ensures { IfOk result (λ value. view value ≡ algorithm_value algorithm) }
{
    match algorithm {
        Some(algorithm) => Value::try_from_str(alloc, text_of(algorithm.word())),
        None => Ok(Value::Null),
    }
}

// An identity.
fn node_to_json(alloc: Global, node: NodeId) -> Result<Value, AllocError>
    ensures { IfOk result (λ value. view value ≡ node_value node) }
{
    json!(in alloc; {"number": node.get(), "weight": node.weight()})
}

// A list of identities.
fn members_to_json(alloc: Global, members: &[NodeId]) -> Result<Value, AllocError>
    ensures { IfOk result (λ value. view value ≡ each node_value members.now) }
{
    let mut list = Vec::new(alloc);
    for member in members {
        list.push(node_to_json(alloc, *member)?)?;
    }
    Ok(Value::Array(list))
}

// A list of numbers.
fn numbers_to_json(alloc: Global, numbers: &[NodeNo]) -> Result<Value, AllocError>
    ensures { IfOk result (λ value. view value ≡ each natural numbers.now) }
{
    let mut list = Vec::new(alloc);
    for number in numbers {
        list.push(Value::from(number.get()))?;
    }
    Ok(Value::Array(list))
}

// The leader of a term, or null.
fn leader_to_json(alloc: Global, leader: Option<NodeId>) -> Result<Value, AllocError>
    ensures { IfOk result (λ value. view value ≡ leader_value leader) }
{
    match leader {
        Some(leader) => node_to_json(alloc, leader),
        None => Ok(Value::Null),
    }
}

// A term with its leader.
fn term_to_json(alloc: Global, term: u64, leader: Option<NodeId>) -> Result<Value, AllocError>
    ensures { IfOk result (λ value. view value ≡ term_value term leader) }
{
    json!(in alloc; {"term": term, "leader": leader_to_json(alloc, leader)?})
}

// The list of the terms with these leaders, from term 1.
fn terms_to_json(alloc: Global, leaders: &[Option<NodeId>]) -> Result<Value, AllocError>
    requires { length leaders.now ≤ 1000 }
    ensures { IfOk result (λ value. view value ≡ array (items_of (terms_from 1 leaders.now))) }
{
    let mut list = Vec::new(alloc);
    let mut term: u64 = 1;
    for leader in leaders {
        list.push(term_to_json(alloc, term, *leader)?)?;
        term += 1;
    }
    Ok(Value::Array(list))
}

// Bytes as a text.
fn text_of(bytes: &[u8]) -> &str
    requires { IsUtf8 bytes.now }
    ensures { result.now ≡ bytes.now }
{
    match str::from_utf8(bytes) {
        Ok(text) => text,
        Err(_) => unreachable!(),
    }
}
