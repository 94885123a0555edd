ghost use Rattle.std.specs.Prelude.{◌≡◌, ◌≢◌, ◌<◌, ◌^◌, ℕ, IfOk, vec_len};
ghost use Rattle.circular_lists.specs.Linked.{HasLinks, link_at, links_without};
ghost use Rattle.circular_lists.specs.Updates.{put};

use base_types::OutOfMemory;
use std::alloc::{AllocError, Global};

/// Circular lists of places, linked both ways: each place lies on one of them, at first alone.
#[derive(Drop)]
pub struct CircularLists {
    pub next: Vec<u32>,
    pub previous: Vec<u32>,
}

/// So many places that lead to themselves.
fn alone(alloc: Global, places: u32) -> Result<Vec<u32>, OutOfMemory>
    ensures alone { IfOk result (λ links. (a : ℕ) → link_at links.items a ≡ a) }
    ensures len { IfOk result (λ links. vec_len links ≡ places) }
{
    let mut links = Vec::with_capacity(alloc, places as usize)?;
    for place in 0..places {
        links.push(place)?;
    }
    Ok(links)
}

impl CircularLists {
    /// So many places, each on a list of its own. The only error is out of memory, and there never
    /// is enough for 2^32 places.
    pub fn new(alloc: Global, places: usize) -> Result<CircularLists, OutOfMemory>
        ensures links { IfOk result (λ lists. HasLinks lists places) }
        ensures alone { IfOk result (λ lists. (a : ℕ) → link_at lists.next.items a ≡ a) }
    {
        if places > u32::MAX as usize {
            return Err(AllocError);
        }
        let next = alone(alloc, places as u32)?;
        let previous = alone(alloc, places as u32)?;
        Ok(CircularLists { next, previous })
    }
}

/// Lets a place lead to another one.
fn set_link(links: &mut Vec<u32>, place: u32, to: u32)
    requires { place < vec_len links.old }
    ensures links { link_at links.new.items ≡ put (link_at links.old.items) place to }
    ensures len { vec_len links.new ≡ vec_len links.old }
{
    links[place as usize] = to;
}

/// Takes a place off its list, in constant time. It is alone then.
pub fn take_off(lists: &mut CircularLists, place: u32)
    requires links { HasLinks lists.old (vec_len lists.old.next) }
    requires place { place < vec_len lists.old.next }
    ensures links { HasLinks lists.new (vec_len lists.old.next) }
    ensures next { link_at lists.new.next.items
        ≡ links_without (link_at lists.old.next.items) (link_at lists.old.previous.items) place }
    ensures previous { link_at lists.new.previous.items
        ≡ links_without (link_at lists.old.previous.items) (link_at lists.old.next.items) place }
{
    let next = lists.next[place as usize];
    let previous = lists.previous[place as usize];
    set_link(&mut lists.next, previous, next);
    set_link(&mut lists.previous, next, previous);
    set_link(&mut lists.next, place, place);
    set_link(&mut lists.previous, place, place);
}

/// Puts a place that is alone behind another one, in constant time.
pub fn put_behind(lists: &mut CircularLists, front: u32, place: u32)
    requires links { HasLinks lists.old (vec_len lists.old.next) }
    requires front { front < vec_len lists.old.next }
    requires place { place < vec_len lists.old.next }
    requires other { place ≢ front }
    requires alone { link_at lists.old.next.items place ≡ place }
    ensures links { HasLinks lists.new (vec_len lists.old.next) }
    ensures next { link_at lists.new.next.items
        ≡ put (put (link_at lists.old.next.items) front place) place
        (link_at lists.old.next.items front) }
    ensures previous { link_at lists.new.previous.items
        ≡ put (put (link_at lists.old.previous.items) (link_at lists.old.next.items front) place)
        place front }
{
    let next = lists.next[front as usize];
    set_link(&mut lists.next, front, place);
    set_link(&mut lists.next, place, next);
    set_link(&mut lists.previous, next, place);
    set_link(&mut lists.previous, place, front);
}
