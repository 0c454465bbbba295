//! The parts of a response.
ghost use Rattle.std.specs.Prelude.{◌≡◌, ◌++◌, OnErr, OnOk, IsTrue, []};
ghost use Rattle.http_header.specs.FieldValue.{is_visible_text};
ghost use Rattle.http_server.specs.Response.{IsBlank, IsResponse, fields_of};
ghost use Rattle.ring_http.specs.Answers.{Says, code_of, fault_code, fields_for, fields_with, kind_in, no_picture, policy_fields, reason_kind, reason_of, refusal_text, text_of};

use crate::asking::Lack;
use crate::route::{Resource, Route};
use crate::text::put;
use http::{HeaderValue, StatusCode, header};
use http_server::{Response, Rope};
use ring_id::Refusal;
use std::alloc::AllocError;

// The type of a reason.
const REASON: &str = "text/plain; charset=utf-8";

/// Begins a response: its status and its policies, and its type and its text if they follow from
/// the route.
pub(crate) fn begin(route: &Route, response: &mut Response) -> Result<(), AllocError>
    requires { IsBlank response.old }
    ensures { OnOk result (IsResponse (code_of route.now) (fields_for route.now) (text_of route.now)
        response.new) }
{
    response.status = code_of(route);
    add_policies(response)?;
    add_rest(route, response)?;
    put(text_of(route).as_bytes(), &mut response.body)
}

// Adds the policies of each response: a page loads nothing from elsewhere, and an answer is not
// used again unless the service was asked. `no-store` would say more, but then a browser cannot go
// back to the page from a link that leads nowhere.
fn add_policies(response: &mut Response) -> Result<(), AllocError>
    requires { fields_of response.old ≡ [] }
    ensures headers { OnOk result (fields_of response.new ≡ policy_fields) }
    ensures status { response.new.status ≡ response.old.status }
    ensures body { response.new.body ≡ response.old.body }
{
    let policy = HeaderValue::from_static("default-src 'self'");
    response.add_header(header::CONTENT_SECURITY_POLICY, policy)?;
    let caching = HeaderValue::from_static("no-cache");
    response.add_header(header::CACHE_CONTROL, caching)
}

// Adds the fields after the policies that follow from the route.
fn add_rest(route: &Route, response: &mut Response) -> Result<(), AllocError>
    requires { fields_of response.old ≡ policy_fields }
    ensures headers { OnOk result (fields_of response.new ≡ fields_for route.now) }
    ensures status { response.new.status ≡ response.old.status }
    ensures body { response.new.body ≡ response.old.body }
{
    match route {
        Route::Found(_) => Ok(()),
        Route::NotAllowed => {
            add_kind(REASON, response)?;
            response.add_header(header::ALLOW, HeaderValue::from_static("GET, HEAD"))
        }
        Route::Misdirected | Route::Unknown => add_kind(REASON, response),
    }
}

/// Adds the type of the text.
pub(crate) fn add_kind(kind: &'static str, response: &mut Response) -> Result<(), AllocError>
    requires visible { IsTrue (is_visible_text kind.now) }
    requires begun { fields_of response.old ≡ policy_fields }
    ensures ok { OnOk result (fields_of response.new ≡ fields_with kind.now) }
    ensures err { OnErr result (fields_of response.new ≡ policy_fields) }
    ensures status { response.new.status ≡ response.old.status }
    ensures body { response.new.body ≡ response.old.body }
{
    response.add_header(header::CONTENT_TYPE, HeaderValue::from_static(kind))
}

// The status that follows from the route.
fn code_of(route: &Route) -> StatusCode
    ensures { result ≡ code_of route.now }
{
    match route {
        Route::Misdirected => StatusCode::MISDIRECTED_REQUEST,
        Route::NotAllowed => StatusCode::METHOD_NOT_ALLOWED,
        Route::Unknown => StatusCode::NOT_FOUND,
        Route::Found(_) => StatusCode::OK,
    }
}

/// The type of a resource that is there.
pub(crate) fn kind_in(resource: &Resource) -> &'static str
    ensures value { result.now ≡ kind_in resource.now }
    ensures visible { IsTrue (is_visible_text result.now) }
{
    match resource {
        Resource::Page => "text/html; charset=utf-8",
        Resource::Script => "text/javascript; charset=utf-8",
        Resource::Style => "text/css; charset=utf-8",
        Resource::Health => "text/plain; charset=utf-8",
        Resource::Metrics => "text/plain; version=0.0.4; charset=utf-8",
        Resource::Groups | Resource::Group(_) => "application/json",
        Resource::Election(_) => "image/svg+xml",
    }
}

// The text that follows from the route.
fn text_of(route: &Route) -> &'static str
    ensures { result.now ≡ text_of route.now }
{
    match route {
        Route::Misdirected => "This is another host.\n",
        Route::NotAllowed => "GET and HEAD alone are allowed.\n",
        Route::Unknown => "There is nothing at this path.\n",
        Route::Found(_) => "",
    }
}

/// Ends a response, whose text is of this type. If an allocation failed for the text or fails for
/// the type, it is a 503 with neither.
pub(crate) fn end(put: Result<(), AllocError>, kind: &'static str, response: &mut Response)
    requires visible { IsTrue (is_visible_text kind.now) }
    requires begun { fields_of response.old ≡ policy_fields }
    ensures ok { OnOk put
        (Says response.old.status kind.now response.old.body.items response.new) }
    ensures err { OnErr put (IsResponse 503 policy_fields [] response.new) }
{
    match put {
        Ok(()) => end_as(kind, response),
        Err(_) => withdraw(response),
    }
}

// Ends a response whose text was put.
fn end_as(kind: &'static str, response: &mut Response)
    requires visible { IsTrue (is_visible_text kind.now) }
    requires begun { fields_of response.old ≡ policy_fields }
    ensures { Says response.old.status kind.now response.old.body.items response.new }
{
    match add_kind(kind, response) {
        Ok(()) => {}
        Err(_) => withdraw(response),
    }
}

// Makes of a response a 503 without a text.
fn withdraw(response: &mut Response)
    ensures { IsResponse 503 (fields_of response.old) [] response.new }
{
    response.status = StatusCode::SERVICE_UNAVAILABLE;
    response.body.clear();
}

/// Says why there is no answer.
pub(crate) fn fail(status: StatusCode, lack: Lack, response: &mut Response)
    requires { IsResponse 200 policy_fields [] response.old }
    ensures { Says status reason_kind (reason_of lack) response.new }
{
    response.status = status;
    let put = put_reason(lack, &mut response.body);
    end(put, REASON, response);
}

/// Says that there is no picture.
pub(crate) fn lack_picture(response: &mut Response)
    requires { IsResponse 200 policy_fields [] response.old }
    ensures { Says 404 reason_kind no_picture response.new }
{
    response.status = StatusCode::NOT_FOUND;
    let text = b"no picture: no term was started since ringd began\n";
    let done = put(text, &mut response.body);
    end(done, REASON, response);
}

// Appends why there is no answer.
fn put_reason(lack: Lack, out: &mut Rope) -> Result<(), AllocError>
    ensures { OnOk result (out.new.items ≡ out.old.items ++ reason_of lack) }
{
    match lack {
        Lack::Unplaced(refusal) => put_refusal(refusal, out),
        Lack::NoGroup => put_refusal(Refusal::NoGroup, out),
        Lack::Late => put(b"no answer\n", out),
    }
}

// Appends a refusal.
fn put_refusal(refusal: Refusal, out: &mut Rope) -> Result<(), AllocError>
    ensures { OnOk result (out.new.items ≡ out.old.items ++ refusal_text refusal) }
{
    put(b"no ", out)?;
    put(refusal.word(), out)?;
    put(b"\n", out)
}

/// The status if a group was asked about and there is no answer.
pub(crate) fn fault_code(lack: Lack) -> StatusCode
    ensures { result ≡ fault_code lack }
{
    match lack {
        Lack::NoGroup => StatusCode::NOT_FOUND,
        Lack::Unplaced(_) | Lack::Late => StatusCode::SERVICE_UNAVAILABLE,
    }
}
