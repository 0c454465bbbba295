//! The answer to a request.
ghost use Rattle.std.specs.Prelude.{◌≡◌, ◌≤◌, ◌+◌, ◌⊎◌, ◌^◌, [], OnErr, OnOk};
ghost use Rattle.http.specs.Request.{head_of};
ghost use Rattle.http_server.specs.Response.{IsBlank, IsResponse};
ghost use Rattle.ring_http.specs.Answers.{Shows, fields_with, kind_in, policy_fields};
ghost use Rattle.ring_http.specs.Answering.{IsAnswered};
ghost use Rattle.ring_http.specs.Asking.{AddsQuestions};
ghost use Rattle.ring_http.specs.declared.route.Resource.TheVariants as Resource;
ghost use Rattle.ring_http.specs.declared.route.Route.TheVariants as Route;

use crate::asking::Asker;
use crate::beside::Beside;
use crate::metrics::put_metrics;
use crate::page::put_page;
use crate::route::{Resource, Route, route_of};
use crate::saying::{add_kind, begin, end, fail, fault_code, kind_in, lack_picture};
use crate::text::put;
use crate::values::{put_group, put_names};
use crate::waiting::{place_of, wait_of};
use bytes::Bytes;
use http::{Request, StatusCode};
use http_server::{Response, Rope};
use ring_any::Any;
use ring_chart::election;
use ring_id::GroupName;
use ring_node::Charter;
use ring_table::Access;
use std::alloc::{AllocError, Global};
use std::sync::{Arc, Wait};
use std::time::Clock;

impl<A: Access<Any> + Drop, R: Wait + Clock, B: Beside> Asker<'_, A, R, B> {
    /// Answers a request by questions of a seat, which change nothing. The response is made only
    /// after all entries that it shows are kept for good. `last` is the place of the last response
    /// on the connection, or 0. A place in this response is greater, and is put there. Fails only
    /// if an allocation fails, and then nothing was asked.
    ///
    /// `/healthz` is 503 if its question is not answered. The text says why: an allocation failed,
    /// or the seat has used up its turns. A journal that failed is no such reason: then the process
    /// ends.
    pub fn answer(
        &self,
        seat: &mut A::Seat,
        last: &mut usize,
        request: &Request<Bytes>,
        response: &mut Response,
    ) -> Result<(), AllocError>
        requires seat { A.has_seat self.now.access.now seat.old }
        requires base { self.now.base + A.most ≤ 2 ^ 64 }
        requires blank { IsBlank response.old }
        ensures seat { A.has_seat self.now.access.now seat.new }
        ensures ok { OnOk result (IsAnswered self.now.base A.most self.now.session
            (head_of request.now) (A.mine seat.old) last.old response.new (A.mine seat.new)
            last.new) }
        ensures err { OnErr result ((seat.new ≡ seat.old) × (last.new ≡ last.old)) }
        ensures rises { last.old ≤ last.new }
        ensures questions { AddsQuestions self.now.session (A.mine seat.old) (A.mine seat.new) }
        ensures told { (seat.new ≡ seat.old) ⊎ A.is_settled seat.new }
    {
        self.reply(seat, last, request, response)
    }

    // The same, without the clauses that follow from the others.
    fn reply(
        &self,
        seat: &mut A::Seat,
        last: &mut usize,
        request: &Request<Bytes>,
        response: &mut Response,
    ) -> Result<(), AllocError>
        requires seat { A.has_seat self.now.access.now seat.old }
        requires base { self.now.base + A.most ≤ 2 ^ 64 }
        requires blank { IsBlank response.old }
        ensures seat { A.has_seat self.now.access.now seat.new }
        ensures ok { OnOk result (IsAnswered self.now.base A.most self.now.session
            (head_of request.now) (A.mine seat.old) last.old response.new (A.mine seat.new)
            last.new) }
        ensures err { OnErr result ((seat.new ≡ seat.old) × (last.new ≡ last.old)) }
        ensures told { (seat.new ≡ seat.old) ⊎ A.is_settled seat.new }
    {
        let route = route_of(request);
        begin(&route, response)?;
        match &route {
            Route::Found(resource) => {
                let query = request.uri().query();
                self.show(
                    resource,
                    wait_of(query),
                    self.seen(query),
                    seat,
                    last,
                    response,
                )
            }
            _ => Ok(()),
        }
    }

    // The sum of the group in the answer that a client has seen, if that is remembered.
    fn seen(&self, query: Option<&str>) -> Option<u64> {
        let place = place_of(query)?;
        self.beside.shown_at(place)
    }

    // Shows a resource.
    fn show(
        &self,
        resource: &Resource,
        wait: u32,
        seen: Option<u64>,
        seat: &mut A::Seat,
        last: &mut usize,
        response: &mut Response,
    ) -> Result<(), AllocError>
        requires seat { A.has_seat self.now.access.now seat.old }
        requires base { self.now.base + A.most ≤ 2 ^ 64 }
        requires wait { wait ≤ 60 }
        requires begun { IsResponse 200 policy_fields [] response.old }
        ensures seat { A.has_seat self.now.access.now seat.new }
        ensures ok { OnOk result (Shows self.now.base A.most self.now.session
            (A.mine seat.old) last.old response.new (A.mine seat.new) last.new resource.now) }
        ensures err { OnErr result ((seat.new ≡ seat.old) × (last.new ≡ last.old)) }
        ensures told { (seat.new ≡ seat.old) ⊎ A.is_settled seat.new }
    {
        match resource {
            Resource::Health => {
                self.show_health(seat, last, response);
                Ok(())
            }
            Resource::Metrics => {
                self.show_metrics(seat, last, response);
                Ok(())
            }
            Resource::Groups => {
                self.show_groups(seat, last, response);
                Ok(())
            }
            Resource::Group(name) => {
                self.show_group(*name, wait, seen, seat, last, response);
                Ok(())
            }
            Resource::Election(name) => {
                self.show_election(*name, seat, last, response);
                Ok(())
            }
            _ => show_page(resource, response),
        }
    }

    // Shows whether a question is answered.
    fn show_health(&self, seat: &mut A::Seat, last: &mut usize, response: &mut Response)
        requires seat { A.has_seat self.now.access.now seat.old }
        requires base { self.now.base + A.most ≤ 2 ^ 64 }
        requires begun { IsResponse 200 policy_fields [] response.old }
        ensures seat { A.has_seat self.now.access.now seat.new }
        ensures shows { Shows self.now.base A.most self.now.session (A.mine seat.old)
            last.old response.new (A.mine seat.new) last.new Resource.Health }
        ensures told { A.is_settled seat.new }
    {
        let asked = self.names(seat, last);
        self.access.settle(self.rt, seat);
        match asked {
            Ok(names) => {
                drop(names);
                let done = put(b"ok\n", &mut response.body);
                end(done, kind_in(&Resource::Health), response);
            }
            Err(lack) => fail(StatusCode::SERVICE_UNAVAILABLE, lack, response),
        }
    }

    // Shows the names of all groups.
    fn show_groups(&self, seat: &mut A::Seat, last: &mut usize, response: &mut Response)
        requires seat { A.has_seat self.now.access.now seat.old }
        requires base { self.now.base + A.most ≤ 2 ^ 64 }
        requires begun { IsResponse 200 policy_fields [] response.old }
        ensures seat { A.has_seat self.now.access.now seat.new }
        ensures shows { Shows self.now.base A.most self.now.session (A.mine seat.old)
            last.old response.new (A.mine seat.new) last.new Resource.Groups }
        ensures told { A.is_settled seat.new }
    {
        let asked = self.names(seat, last);
        self.access.settle(self.rt, seat);
        match asked {
            Ok(names) => {
                let done = put_names(self.alloc, *last, names.as_slice(), &mut response.body);
                end(done, kind_in(&Resource::Groups), response);
            }
            Err(lack) => fail(StatusCode::SERVICE_UNAVAILABLE, lack, response),
        }
    }

    // Shows metrics.
    fn show_metrics(&self, seat: &mut A::Seat, last: &mut usize, response: &mut Response)
        requires seat { A.has_seat self.now.access.now seat.old }
        requires base { self.now.base + A.most ≤ 2 ^ 64 }
        requires begun { IsResponse 200 policy_fields [] response.old }
        ensures seat { A.has_seat self.now.access.now seat.new }
        ensures shows { Shows self.now.base A.most self.now.session (A.mine seat.old)
            last.old response.new (A.mine seat.new) last.new Resource.Metrics }
        ensures told { A.is_settled seat.new }
    {
        let asked = self.look_at_all(seat, last);
        self.access.settle(self.rt, seat);
        match asked {
            Ok(groups) => {
                let done = put_metrics(*last, &groups, &self.beside.figures(), &mut response.body);
                end(done, kind_in(&Resource::Metrics), response);
            }
            Err(lack) => fail(StatusCode::SERVICE_UNAVAILABLE, lack, response),
        }
    }

    // Shows a group as soon as it says something else than the client has seen, or after `wait`
    // seconds. What it says then is remembered by its place.
    fn show_group(
        &self,
        name: GroupName,
        wait: u32,
        seen: Option<u64>,
        seat: &mut A::Seat,
        last: &mut usize,
        response: &mut Response,
    )
        requires seat { A.has_seat self.now.access.now seat.old }
        requires base { self.now.base + A.most ≤ 2 ^ 64 }
        requires wait { wait ≤ 60 }
        requires begun { IsResponse 200 policy_fields [] response.old }
        ensures seat { A.has_seat self.now.access.now seat.new }
        ensures shows { Shows self.now.base A.most self.now.session (A.mine seat.old)
            last.old response.new (A.mine seat.new) last.new (Resource.Group name) }
        ensures told { A.is_settled seat.new }
    {
        let asked = self.watch(seat, last, name, wait, seen);
        self.access.settle(self.rt, seat);
        match asked {
            Ok(group) => {
                self.beside.note_shown(*last, group.sum());
                let done = put_group(self.alloc, *last, &group, &mut response.body);
                end(done, kind_in(&Resource::Group(name)), response);
            }
            Err(lack) => fail(fault_code(lack), lack, response),
        }
    }

    // Shows the election of a group's last term as a picture. Its charter is read before the group
    // is asked about, so the start of the term is kept for good as well.
    fn show_election(
        &self,
        name: GroupName,
        seat: &mut A::Seat,
        last: &mut usize,
        response: &mut Response,
    )
        requires seat { A.has_seat self.now.access.now seat.old }
        requires base { self.now.base + A.most ≤ 2 ^ 64 }
        requires begun { IsResponse 200 policy_fields [] response.old }
        ensures seat { A.has_seat self.now.access.now seat.new }
        ensures shows { Shows self.now.base A.most self.now.session (A.mine seat.old)
            last.old response.new (A.mine seat.new) last.new (Resource.Election name) }
        ensures told { (seat.new ≡ seat.old) ⊎ A.is_settled seat.new }
    {
        match self.beside.charter(name) {
            Some(charter) => self.show_picture(name, &charter, seat, last, response),
            None => lack_picture(response),
        }
    }

    // Shows the election of a group with this charter as a picture.
    fn show_picture(
        &self,
        name: GroupName,
        charter: &Arc<Charter<Any>>,
        seat: &mut A::Seat,
        last: &mut usize,
        response: &mut Response,
    )
        requires seat { A.has_seat self.now.access.now seat.old }
        requires base { self.now.base + A.most ≤ 2 ^ 64 }
        requires begun { IsResponse 200 policy_fields [] response.old }
        ensures seat { A.has_seat self.now.access.now seat.new }
        ensures shows { Shows self.now.base A.most self.now.session (A.mine seat.old)
            last.old response.new (A.mine seat.new) last.new (Resource.Election name) }
        ensures told { A.is_settled seat.new }
    {
        let asked = self.terms(seat, last, name);
        self.access.settle(self.rt, seat);
        match asked {
            Ok(terms) => {
                drop(terms);
                let done = put_election(self.alloc, charter, &mut response.body);
                end(done, kind_in(&Resource::Election(name)), response);
            }
            Err(lack) => fail(fault_code(lack), lack, response),
        }
    }
}

// Appends the picture of an election with this charter.
fn put_election(
    alloc: Global,
    charter: &Arc<Charter<Any>>,
    out: &mut Rope,
) -> Result<(), AllocError> {
    let picture = election(alloc, charter)?;
    put(picture.as_bytes(), out)
}

// Shows the page, its script or its style.
fn show_page(resource: &Resource, response: &mut Response) -> Result<(), AllocError>
    requires { IsResponse 200 policy_fields [] response.old }
    ensures { OnOk result (IsResponse 200 (fields_with (kind_in resource.now))
        response.new.body.items response.new) }
{
    put_page(resource, &mut response.body)?;
    add_kind(kind_in(resource), response)
}
