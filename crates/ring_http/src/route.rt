//! The route of a request: the resource that it asks for, or why there is none.
ghost use Rattle.std.specs.Prelude.{◌≡◌, ◌≤◌, ◌↔◌, IsTrue, length};
ghost use Rattle.std.specs.List.{prefix_len};
ghost use Rattle.std.specs.Str.{str_eq_ignore_ascii_case};
ghost use Rattle.http.specs.Request.{head_of};
ghost use Rattle.ring_http.specs.Routes.{IsRoute, Names, is_for_here, is_local, is_no_colon, reads};
ghost use Rattle.ring_http.specs.private.Routes.{Finds, NamesGroup};

use bytes::Bytes;
use http::{Method, Request, header};
use ring_id::GroupName;

/// The resource that a path names.
#[derive(Clone, Copy)]
pub enum Resource {
    /// The page.
    Page,
    /// Its script.
    Script,
    /// Its style.
    Style,
    /// Whether the service answers.
    Health,
    /// Metrics.
    Metrics,
    /// The names of all groups.
    Groups,
    /// A group.
    Group(GroupName),
    /// The election of a group's last term, as a picture.
    Election(GroupName),
}

/// The route of a request.
#[derive(Clone, Copy)]
pub enum Route {
    /// It is for another host.
    Misdirected,
    /// Its method is neither GET nor HEAD.
    NotAllowed,
    /// Its path names nothing.
    Unknown,
    /// It asks for this resource.
    Found(Resource),
}

/// Returns the route of a request.
pub fn route_of(request: &Request<Bytes>) -> Route
    ensures { IsRoute (head_of request.now) result }
{
    if !is_for_here(request) {
        return Route::Misdirected;
    }
    if !reads(request.method()) {
        return Route::NotAllowed;
    }
    match resource_at(request.uri().path().as_bytes()) {
        Some(resource) => Route::Found(resource),
        None => Route::Unknown,
    }
}

// Whether a request is for this host, by its target or else by its field `Host`.
fn is_for_here(request: &Request<Bytes>) -> bool
    ensures { result ≡ is_for_here (head_of request.now) }
{
    match request.uri().authority() {
        Some(authority) => is_local(authority.as_str().as_bytes()),
        None => match request.headers().get(header::HOST) {
            Some(value) => is_local(value.as_bytes()),
            None => false,
        },
    }
}

// Whether a host and perhaps a port are this machine's. The name of a host has no case.
fn is_local(host: &[u8]) -> bool
    ensures { result ≡ is_local host.now }
{
    let len = name_len(host);
    let name = &host[..len];
    name == b"127.0.0.1".as_slice() || is_same_name(name, b"localhost")
}

// Whether two names differ at most in the case of their letters.
fn is_same_name(name: &[u8], other: &[u8]) -> bool
    ensures { result ≡ str_eq_ignore_ascii_case name.now other.now }
{
    name.eq_ignore_ascii_case(other)
}

// The number of bytes before the first colon.
fn name_len(host: &[u8]) -> usize
    ensures value { result ≡ prefix_len is_no_colon host.now }
    ensures within { result ≤ length host.now }
{
    host.iter().take_while(|b| **b != b':').count()
}

// Whether a method only reads.
fn reads(method: &Method) -> bool
    ensures { result ≡ reads method.now }
{
    let name = method.as_str();
    name == "GET" || name == "HEAD"
}

// The resource that a path names. It names no other: a name has no slash.
fn resource_at(path: &[u8]) -> Option<Resource>
    ensures { Names path.now result }
{
    found_at(path)
}

// The same, without the clause that follows from the paths.
fn found_at(path: &[u8]) -> Option<Resource>
    ensures { Finds path.now result }
{
    if is(path, b"/") {
        return Some(Resource::Page);
    }
    if is(path, b"/app.js") {
        return Some(Resource::Script);
    }
    if is(path, b"/app.css") {
        return Some(Resource::Style);
    }
    if is(path, b"/healthz") {
        return Some(Resource::Health);
    }
    if is(path, b"/metrics") {
        return Some(Resource::Metrics);
    }
    if is(path, b"/v1/groups") {
        return Some(Resource::Groups);
    }
    group_at(path)
}

// Whether a path is this text.
fn is(path: &[u8], text: &[u8]) -> bool
    ensures { IsTrue result ↔ (path.now ≡ text.now) }
{
    path == text
}

// The group that a path names, or its election.
fn group_at(path: &[u8]) -> Option<Resource>
    ensures { NamesGroup path.now result }
{
    let rest = path.strip_prefix(b"/v1/groups/")?;
    if let Ok(name) = GroupName::from_bytes(rest) {
        return Some(Resource::Group(name));
    }
    match GroupName::from_bytes(rest.strip_suffix(b"/election.svg")?) {
        Ok(name) => Some(Resource::Election(name)),
        Err(_) => None,
    }
}
