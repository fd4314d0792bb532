//! Routes: each worker gets one to each deque, its own among them.

ghost use Rattle.std.specs.Prelude.{◌≡◌, ◌+◌, ◌-◌, ◌<◌, ◌≤◌, ℕ, [], All, IfOk, OnOk, map, length, replicate, sum_by, slice_set, slice_index, slice_index_or};
ghost use Rattle.gufi_pool.specs.Accounts.{Weight, whole};
ghost use Rattle.gufi_pool.specs.Members.{Deque, new_route, route_view, route_frame, routes_taken, but_share, but_routes, but_share_and_routes, member_share, member_deque, route_frames, member_stolen};

use crate::member::{Member, Route};
use crate::rule::{GivenTasks, Shares};
use gufi_base::Memory;
use std::alloc::Global;

impl<T: GivenTasks, P> Member<T, P> {
    /// A route to the worker's deque, for which it gives one part of its share.
    fn route(&mut self) -> Result<Route<T>, Memory>
        requires { 1 < member_share self.old }
        ensures same { OnOk result (but_share self.new ≡ but_share self.old) }
        ensures share { OnOk result (member_share self.new ≡ member_share self.old - 1) }
        ensures route { IfOk result (λ r. route_frame r ≡ new_route (member_deque self.old)) }
        ensures taken { IfOk result (λ r. (route_view r).taken ≡ []) }
    {
        let thief = self.own.stealer()?;
        let pass = self.own.another::<Shares>();
        Ok(Route { thief, pass })
    }
}

/// A route to the deque of the worker k.
fn route_to<T: GivenTasks, P>(members: &mut Vec<Member<T, P>>, k: usize) -> Result<Route<T>, Memory>
    requires at { k < length members.old.items }
    requires share { 1 < slice_index (map member_share members.old.items) k }
    ensures same { OnOk result (map but_share members.new.items ≡ map but_share members.old.items) }
    ensures shares { OnOk result (map member_share members.new.items ≡ slice_set (map member_share members.old.items) k (slice_index (map member_share members.old.items) k - 1)) }
    ensures route { IfOk result (λ r. (d : Deque) → route_frame r ≡ new_route (slice_index_or (map member_deque members.old.items) k d)) }
    ensures taken { IfOk result (λ r. (route_view r).taken ≡ []) }
{
    members[k].route()
}

/// A route to each deque, in the order of the workers.
fn row<T: GivenTasks, P>(
    alloc: Global,
    members: &mut Vec<Member<T, P>>,
) -> Result<Vec<Route<T>>, Memory>
    requires { All (λ n. 1 < n) (map member_share members.old.items) }
    ensures same { OnOk result (map but_share members.new.items ≡ map but_share members.old.items) }
    ensures shares { OnOk result (map member_share members.new.items ≡ map (λ n. n - 1) (map member_share members.old.items)) }
    ensures row { IfOk result (λ r. map route_frame r.items ≡ map new_route (map member_deque members.old.items)) }
    ensures taken { IfOk result (λ r. (h : Weight) → routes_taken h r.items ≡ 0) }
{
    let mut routes = Vec::new(alloc);
    for k in 0..members.len() {
        let route = route_to(members, k)?;
        routes.push(route)?;
    }
    Ok(routes)
}

/// Gives the worker k its routes.
fn set_routes<T: GivenTasks, P>(members: &mut Vec<Member<T, P>>, k: usize, routes: Vec<Route<T>>)
    requires { k < length members.old.items }
    ensures same { map but_routes members.new.items ≡ map but_routes members.old.items }
    ensures leads { map route_frames members.new.items ≡ slice_set (map route_frames members.old.items) k (map route_frame routes.items) }
    ensures stolen { (h : Weight) → sum_by (member_stolen h) members.new.items ≤ sum_by (member_stolen h) members.old.items + routes_taken h routes.items }
{
    members[k].routes = routes;
}

/// Gives each worker a route to each deque.
pub(crate) fn connect<T: GivenTasks, P>(
    alloc: Global,
    members: &mut Vec<Member<T, P>>,
) -> Result<(), Memory>
    requires few { length members.old.items ≤ 32 }
    requires shares { All (λ n. n ≡ whole) (map member_share members.old.items) }
    requires unused { (h : Weight) → sum_by (member_stolen h) members.old.items ≡ 0 }
    ensures same { OnOk result (map but_share_and_routes members.new.items ≡ map but_share_and_routes members.old.items) }
    ensures shares { OnOk result (All (λ n. n + length members.old.items ≡ whole) (map member_share members.new.items)) }
    ensures leads { OnOk result (All (λ l. l ≡ map new_route (map member_deque members.old.items)) (map route_frames members.new.items)) }
    ensures unused { OnOk result ((h : Weight) → sum_by (member_stolen h) members.new.items ≡ 0) }
{
    for k in 0..members.len() {
        let routes = row(alloc, members)?;
        set_routes(members, k, routes);
    }
    Ok(())
}
