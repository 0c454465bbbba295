//! Pictures of groups, each asked in one turn of the seat.
ghost use Rattle.std.specs.Prelude.{◌≡◌, ◌≤◌, ◌+◌, ◌^◌, IfErr, IfOk, OnOk};
ghost use Rattle.ring_http.specs.Asking.{AddsPicture, AddsPictures, IsPlaceAfter, IsPlaceFrom, Lacks};
ghost use Rattle.ring_http.specs.private.Picturing.{AddsAll, AddsWatched};

use crate::asking::{Asker, Lack};
use crate::beside::Beside;
use crate::picture::GroupPicture;
use crate::waiting::is_over;
use ring_any::Any;
use ring_id::{GroupName, Refusal};
use ring_table::Access;
use std::sync::Wait;
use std::thread;
use std::time::{Clock, Duration, Instant};

// The microseconds between two looks at a group.
const PAUSE: u64 = 31_250;

// The most looks for each second of a wait. So a wait ends also if the clock cannot be read.
const LOOKS: u32 = 32;

impl<A: Access<Any> + Drop, R: Wait + Clock, B: Beside> Asker<'_, A, R, B> {
    /// Returns a picture of a group. If its sum is not `seen`, it is returned at once. Else the
    /// group is looked at again and again, and the first picture that differs is returned. If none
    /// does within `wait` seconds of the clock, the last one is returned.
    pub(crate) fn watch(
        &self,
        seat: &mut A::Seat,
        place: &mut usize,
        name: GroupName,
        wait: u32,
        seen: Option<u64>,
    ) -> Result<GroupPicture, Lack>
        requires seat { A.has_seat self.now.access.now seat.old }
        requires base { self.now.base + A.most ≤ 2 ^ 64 }
        requires wait { wait ≤ 60 }
        ensures seat { A.has_seat self.now.access.now seat.new }
        ensures ok { IfOk result (λ group. AddsWatched self.now.session name group (A.mine seat.old)
            (A.mine seat.new)) }
        ensures err { IfErr result
            (λ lack. Lacks self.now.session lack (A.mine seat.old) (A.mine seat.new)) }
        ensures placed { OnOk result
            (IsPlaceAfter self.now.base A.most place.old place.new) }
        ensures rises { place.old ≤ place.new }
    {
        let began = Instant::now(self.rt).ok();
        let mut shown = self.look(seat, place, name)?;
        let mut is_news = shown.is_news(seen);
        for _ in 0..wait * LOOKS {
            if is_news || is_over(self.rt, began, wait) {
                break;
            }
            thread::sleep(self.rt, Duration::from_micros(PAUSE));
            let next = self.look(seat, place, name)?;
            is_news = !shown.is_same(&next);
            shown = next;
        }
        Ok(shown)
    }
}

impl<A: Access<Any> + Drop, R: Wait, B: Beside> Asker<'_, A, R, B> {
    // Returns a picture of a group, asked in one turn of the seat. The place of its last answer is
    // greater than that of the look before.
    fn look(
        &self,
        seat: &mut A::Seat,
        place: &mut usize,
        name: GroupName,
    ) -> Result<GroupPicture, Lack>
        requires seat { A.has_seat self.now.access.now seat.old }
        requires base { self.now.base + A.most ≤ 2 ^ 64 }
        ensures seat { A.has_seat self.now.access.now seat.new }
        ensures ok { IfOk result (λ group. (group.name ≡ name)
            × AddsPicture self.now.session group (A.mine seat.old) (A.mine seat.new)) }
        ensures err { IfErr result
            (λ lack. Lacks self.now.session lack (A.mine seat.old) (A.mine seat.new)) }
        ensures placed { OnOk result
            (IsPlaceAfter self.now.base A.most place.old place.new) }
        ensures rises { place.old ≤ place.new }
    {
        let queued = self.access.enter_queue(self.rt);
        self.access.hold(seat);
        let picture = self.picture(seat, place, name);
        self.access.release(seat);
        drop(queued);
        picture
    }

    /// Returns pictures of all groups, asked in one turn of the seat.
    pub(crate) fn look_at_all(
        &self,
        seat: &mut A::Seat,
        place: &mut usize,
    ) -> Result<Vec<GroupPicture>, Lack>
        requires seat { A.has_seat self.now.access.now seat.old }
        requires base { self.now.base + A.most ≤ 2 ^ 64 }
        ensures seat { A.has_seat self.now.access.now seat.new }
        ensures ok { IfOk result (λ groups. AddsAll self.now.session groups.items (A.mine seat.old)
            (A.mine seat.new)) }
        ensures err { IfErr result
            (λ lack. Lacks self.now.session lack (A.mine seat.old) (A.mine seat.new)) }
        ensures placed { OnOk result
            (IsPlaceAfter self.now.base A.most place.old place.new) }
        ensures rises { place.old ≤ place.new }
    {
        let queued = self.access.enter_queue(self.rt);
        self.access.hold(seat);
        let pictures = self.all(seat, place);
        self.access.release(seat);
        drop(queued);
        pictures
    }

    // Returns pictures of all groups. The caller holds the seat, if they have to be of one moment.
    fn all(&self, seat: &mut A::Seat, place: &mut usize) -> Result<Vec<GroupPicture>, Lack>
        requires seat { A.has_seat self.now.access.now seat.old }
        requires base { self.now.base + A.most ≤ 2 ^ 64 }
        ensures seat { A.has_seat self.now.access.now seat.new }
        ensures ok { IfOk result (λ groups. AddsAll self.now.session groups.items (A.mine seat.old)
            (A.mine seat.new)) }
        ensures err { IfErr result
            (λ lack. Lacks self.now.session lack (A.mine seat.old) (A.mine seat.new)) }
        ensures placed { OnOk result
            (IsPlaceAfter self.now.base A.most place.old place.new) }
        ensures rises { place.old ≤ place.new }
    {
        let names = self.names(seat, place)?;
        self.pictures(seat, place, names.as_slice())
    }

    // Returns pictures of these groups, in their order.
    fn pictures(
        &self,
        seat: &mut A::Seat,
        place: &mut usize,
        names: &[GroupName],
    ) -> Result<Vec<GroupPicture>, Lack>
        requires seat { A.has_seat self.now.access.now seat.old }
        requires base { self.now.base + A.most ≤ 2 ^ 64 }
        ensures seat { A.has_seat self.now.access.now seat.new }
        ensures ok { IfOk result (λ groups. AddsPictures self.now.session names.now groups.items
            (A.mine seat.old) (A.mine seat.new)) }
        ensures err { IfErr result
            (λ lack. Lacks self.now.session lack (A.mine seat.old) (A.mine seat.new)) }
        ensures kept { OnOk result (IsPlaceFrom self.now.base A.most place.old
            → IsPlaceFrom self.now.base A.most place.new) }
        ensures rises { place.old ≤ place.new }
    {
        let mut groups = Vec::new(self.alloc);
        for name in names {
            let group = self.picture(seat, place, *name)?;
            let Ok(()) = groups.push(group) else {
                return Err(Lack::Unplaced(Refusal::NoMemory));
            };
        }
        Ok(groups)
    }

    // Returns a picture of a group. The caller holds the seat, if it has to be of one moment.
    fn picture(
        &self,
        seat: &mut A::Seat,
        place: &mut usize,
        name: GroupName,
    ) -> Result<GroupPicture, Lack>
        requires seat { A.has_seat self.now.access.now seat.old }
        requires base { self.now.base + A.most ≤ 2 ^ 64 }
        ensures seat { A.has_seat self.now.access.now seat.new }
        ensures ok { IfOk result (λ group. (group.name ≡ name)
            × AddsPicture self.now.session group (A.mine seat.old) (A.mine seat.new)) }
        ensures err { IfErr result
            (λ lack. Lacks self.now.session lack (A.mine seat.old) (A.mine seat.new)) }
        ensures placed { OnOk result
            (IsPlaceAfter self.now.base A.most place.old place.new) }
        ensures rises { place.old ≤ place.new }
    {
        let members = self.members(seat, place, name)?;
        let leaders = self.terms(seat, place, name)?;
        let informed = self.informed(seat, place, name, members.as_slice())?;
        Ok(GroupPicture {
            name,
            algorithm: self.beside.algorithm(name),
            members,
            leaders,
            informed,
        })
    }
}
