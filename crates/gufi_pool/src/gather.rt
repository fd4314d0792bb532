//! After the work: the passes to each deque are joined into its worker's.

ghost use Rattle.std.specs.Prelude.{◌≡◌, ◌+◌, ◌<◌, ◌≤◌, ℕ, [], List, All, map, length, sum_by, slice_set, slice_index, slice_index_or};
ghost use Rattle.gufi_pool.specs.Accounts.{Weight, whole};
ghost use Rattle.gufi_pool.specs.Members.{Deque, new_route, route_view, route_frame, routes_taken, but_routes, but_share_and_taken, own_deque_and_piece, own_taken, member_view, member_share, member_deque, route_frames, member_routes, member_stolen, member_taken};

use crate::member::{Member, Route};
use crate::rule::{GivenTasks, Shares};
use std::alloc::Global;
use std::mem;

impl<T: GivenTasks, P> Member<T, P> {
    /// Joins the pass of a route to the worker's own deque.
    fn join(&mut self, route: Route<T>)
        requires lead { route_frame route ≡ new_route (member_deque self.old) }
        requires share { 0 < member_share self.old }
        ensures same { but_share_and_taken self.new ≡ but_share_and_taken self.old }
        ensures share { member_share self.new ≡ member_share self.old + 1 }
        ensures taken { (h : Weight) → own_taken h self.new ≡ own_taken h self.old + sum_by h (route_view route).taken }
    {
        let Route { thief: _, pass } = route;
        self.own.absorb::<Shares>(pass);
    }

    /// The worker's routes, of which none is left with it.
    fn take_routes(&mut self, alloc: Global) -> Vec<Route<T>>
        ensures same { but_routes self.new ≡ but_routes self.old }
        ensures empty { member_routes self.new ≡ [] }
        ensures routes { result.items ≡ member_routes self.old }
    {
        mem::replace(&mut self.routes, Vec::new(alloc))
    }
}

/// Joins the pass of a route to the deque of the worker k.
fn join_at<T: GivenTasks, P>(members: &mut Vec<Member<T, P>>, k: usize, route: Route<T>)
    requires at { k < length members.old.items }
    requires lead { (d : Deque) → route_frame route ≡ new_route (slice_index_or (map member_deque members.old.items) k d) }
    requires share { 0 < slice_index (map member_share members.old.items) k }
    ensures same { map but_share_and_taken members.new.items ≡ map but_share_and_taken members.old.items }
    ensures shares { map member_share members.new.items ≡ slice_set (map member_share members.old.items) k (slice_index (map member_share members.old.items) k + 1) }
    ensures taken { (h : Weight) → sum_by (own_taken h) members.new.items ≡ sum_by (own_taken h) members.old.items + sum_by h (route_view route).taken }
{
    members[k].join(route);
}

/// Joins the passes of one worker's routes, each into the pass of the deque's worker.
fn join_row<T: GivenTasks, P>(members: &mut Vec<Member<T, P>>, routes: Vec<Route<T>>)
    requires leads { map route_frame routes.items ≡ map new_route (map member_deque members.old.items) }
    requires shares { All (λ n. 0 < n) (map member_share members.old.items) }
    ensures same { map but_share_and_taken members.new.items ≡ map but_share_and_taken members.old.items }
    ensures shares { map member_share members.new.items ≡ map (λ n. n + 1) (map member_share members.old.items) }
    ensures taken { (h : Weight) → sum_by (own_taken h) members.new.items ≡ sum_by (own_taken h) members.old.items + routes_taken h routes.items }
{
    let mut k = 0;
    for route in routes {
        join_at(members, k, route);
        k += 1;
    }
}

/// The routes of the worker k.
fn take_at<T: GivenTasks, P>(
    alloc: Global,
    members: &mut Vec<Member<T, P>>,
    k: usize,
) -> Vec<Route<T>>
    requires { k < length members.old.items }
    ensures same { map but_routes members.new.items ≡ map but_routes members.old.items }
    ensures empty { map member_routes members.new.items ≡ slice_set (map member_routes members.old.items) k [] }
    ensures routes { (d : List (Route T)) → result.items ≡ slice_index_or (map member_routes members.old.items) k d }
    ensures stolen { (h : Weight) → sum_by (member_stolen h) members.new.items + routes_taken h result.items ≡ sum_by (member_stolen h) members.old.items }
{
    members[k].take_routes(alloc)
}

/// Joins all passes to each deque into its worker's, which then has the whole share.
pub(crate) fn gather<T: GivenTasks, P>(alloc: Global, members: &mut Vec<Member<T, P>>)
    requires some { length members.old.items < whole }
    requires shares { All (λ n. n + length members.old.items ≡ whole) (map member_share members.old.items) }
    requires leads { All (λ l. l ≡ map new_route (map member_deque members.old.items)) (map route_frames members.old.items) }
    ensures same { map own_deque_and_piece members.new.items ≡ map own_deque_and_piece members.old.items }
    ensures shares { All (λ n. n ≡ whole) (map member_share members.new.items) }
    ensures empty { All (λ l. l ≡ []) (map member_routes members.new.items) }
    ensures taken { (h : Weight) → sum_by (member_taken h) members.new.items ≡ sum_by (member_taken h) members.old.items }
{
    for k in 0..members.len() {
        let routes = take_at(alloc, members, k);
        join_row(members, routes);
    }
}
