//! Whether the inside of a polygon is one piece: it isn't where rings touch along a circle.

ghost use Rattle.std.specs.Prelude.{◌≡◌, ◌↔◌, ◌<◌, ◌≤◌, ◌+◌, ◌^◌, [], All, Contains, IfErr, IfOk, MatchBool, MatchOption, OnOk, get_or, length, map};
ghost use Rattle.forest.specs.Circles.{HasNoCircle, Parts};
ghost use Rattle.overlay.specs.OnePiece.{ComesFree, TouchAlongNoCircle, TouchesIn};
ghost use Rattle.overlay.specs.Rings.{HasEnds};
ghost use Rattle.plane.specs.declared.meet.kinds.Meeting.TheVariants.{Touch};
ghost use Rattle.plane.specs.Gains.{GainsThese, IsOfSome};
ghost use Rattle.plane.specs.Meet.Kinds.{HasPoint, MeetSo};
ghost use Rattle.validity.specs.Contacts.{AreContacts, AreOwned, AreTogether, GoesOn, IsApartFromLast, IsContactAt, IsWithLast, IsContactOf, IsGraphOf, IsOwnedBy, edge_of};
ghost use Rattle.validity.specs.Given.{rings_at};
ghost use Rattle.validity.specs.declared.unchecked.Unchecked.TheVariants.{OutOfMemory};

use crate::unchecked::Unchecked;
use forest::first_on_circle;
use overlay::Rings;
use overlay::rings::{append_real_ones, ring_at};
use plane::edge::{Edge, end_of, start_of};
use plane::meet::{Meeting, has_point, how_they_meet, meetings};
use plane::point::Point;
use std::alloc::{AllocError, Allocator};

/// A point in which a ring touches another one. They are in order by points.
#[derive(Clone, Copy, Debug, PartialEq, Eq, PartialOrd, Ord)]
pub(crate) struct Contact {
    pub point: Point,
    pub ring: usize,
}

/// An edge, and the ring that it is of.
#[derive(Clone, Copy, Debug)]
pub(crate) struct OwnedEdge {
    pub edge: Edge,
    pub ring: usize,
}

// A ring and a point in which it touches others, where others that touch hold it to these, too.
pub(crate) fn first_circle<A: Allocator + Copy>(
    alloc: A,
    rings: Rings,
) -> Result<Option<Contact>, Unchecked>
    requires { HasEnds rings }
    ensures ok { IfOk result (λ found. MatchOption found (TouchAlongNoCircle (rings_at rings.entry))
        (λ contact. TouchesIn (rings_at rings.entry) contact.ring contact.point × (¬ (ComesFree (rings_at rings.entry) contact.ring contact.point)))) }
    ensures fault { IfErr result (λ cause. cause ≡ OutOfMemory) }
{
    let contacts = contacts_of(alloc, rings)?;
    let graph = graph_of(alloc, &contacts, rings.ends.len())?;
    let Some(place) = first_on_circle(alloc, rings.ends.len() + contacts.len(), &graph)? else {
        return Ok(None);
    };
    Ok(Some(contacts[place]))
}

// The contacts of the rings, each once, in order.
fn contacts_of<A: Allocator + Copy>(alloc: A, rings: Rings) -> Result<Vec<Contact, A>, Unchecked>
    requires { HasEnds rings }
    ensures ok { IfOk result (λ contacts. AreContacts (rings_at rings.entry) contacts.items) }
    ensures together { IfOk result (λ contacts. AreTogether contacts.items) }
    ensures fault { IfErr result (λ cause. cause ≡ OutOfMemory) }
{
    let owned = owned_edges(alloc, rings)?;
    let edges = edges_of(alloc, &owned)?;
    let mut pairs = Vec::new(alloc);
    meetings(&edges, &mut pairs)?;
    let mut contacts = contacts_at(alloc, &owned, &pairs)?;
    contacts.sort_unstable();
    contacts.dedup();
    Ok(contacts)
}

// The edges of the rings, each with the number of its ring.
fn owned_edges<A: Allocator + Copy>(alloc: A, rings: Rings) -> Result<Vec<OwnedEdge, A>, AllocError>
    requires { HasEnds rings }
    ensures { IfOk result (λ owned. AreOwned (rings_at rings.entry) owned.items) }
{
    let mut owned = Vec::new(alloc);
    // Those of the rings before this one are there.
    for ring in 0..rings.ends.len() {
        let mut edges = Vec::new(alloc);
        append_real_ones(ring_at(rings.points, rings.ends, ring), &mut edges)?;
        append_owned(&edges, ring, &mut owned)?;
    }
    Ok(owned)
}

// Appends the edges with this number.
fn append_owned<A: Allocator>(
    edges: &[Edge],
    ring: usize,
    owned: &mut Vec<OwnedEdge, A>,
) -> Result<(), AllocError>
    ensures { OnOk result (GainsThese (IsOfSome (IsOwnedBy ring) edges.now) owned.old.items owned.new.items) }
{
    // Those so far are there.
    for edge in edges {
        owned.push(OwnedEdge { edge: *edge, ring })?;
    }
    Ok(())
}

// The edges alone.
#[tactic(auto, using(std::proofs::lemmas::List::map_more, std::proofs::lemmas::List::take_all))]
fn edges_of<A: Allocator>(alloc: A, owned: &[OwnedEdge]) -> Result<Vec<Edge, A>, AllocError>
    ensures { IfOk result (λ edges. edges.items ≡ map edge_of owned.now) }
{
    let mut edges = Vec::with_capacity(alloc, owned.len())?;
    // Those so far are there.
    for one in owned {
        edges.push(one.edge)?;
    }
    Ok(edges)
}

// The contacts of the edges at the pairs, as often as they are told.
fn contacts_at<A: Allocator + Copy>(
    alloc: A,
    owned: &[OwnedEdge],
    pairs: &[(usize, usize)],
) -> Result<Vec<Contact, A>, AllocError>
    requires { All (λ pair. (pair.0 < length owned.now) × (pair.1 < length owned.now)) pairs.now }
    ensures { IfOk result (λ contacts. GainsThese (IsOfSome (IsContactAt owned.now) pairs.now) [] contacts.items) }
{
    let mut contacts = Vec::new(alloc);
    // Those at the pairs so far are there.
    for pair in pairs {
        append_contacts(owned[pair.0], owned[pair.1], &mut contacts)?;
    }
    Ok(contacts)
}

// Appends the contacts of both rings, where the edges are of two that touch there.
fn append_contacts<A: Allocator>(
    one: OwnedEdge,
    other: OwnedEdge,
    contacts: &mut Vec<Contact, A>,
) -> Result<(), AllocError>
    ensures { OnOk result (GainsThese (IsContactOf one other) contacts.old.items contacts.new.items) }
{
    if one.ring == other.ring {
        return Ok(());
    }
    if !touch_alone(one.edge, other.edge) {
        return Ok(());
    }
    let point = touching_point(one.edge, other.edge);
    contacts.push(Contact {
        point,
        ring: one.ring,
    })?;
    contacts.push(Contact {
        point,
        ring: other.ring,
    })?;
    Ok(())
}

// Whether the edges meet in one point alone, an end of one of them.
fn touch_alone(one: Edge, other: Edge) -> bool
    ensures { MatchBool result (MeetSo one other Touch) (¬ (MeetSo one other Touch)) }
{
    match how_they_meet(one, other) {
        Meeting::Touch => true,
        Meeting::Apart => false,
        Meeting::Cross => false,
        Meeting::Share => false,
    }
}

// That point.
fn touching_point(one: Edge, other: Edge) -> Point
    requires { MeetSo one other Touch }
    ensures on { HasPoint one result.x result.y }
    ensures other_on { HasPoint other result.x result.y }
{
    if is_on(one, start_of(other)) {
        return start_of(other);
    }
    if is_on(one, end_of(other)) {
        return end_of(other);
    }
    if is_on(other, start_of(one)) {
        return start_of(one);
    }
    end_of(one)
}

// Whether the point is of the edge.
fn is_on(edge: Edge, point: Point) -> bool
    ensures { MatchBool result (HasPoint edge point.x point.y) (¬ (HasPoint edge point.x point.y)) }
{
    has_point(edge, point.x, point.y)
}

// The contacts as edges of a graph: of each the ring, and a node for its point behind all rings.
fn graph_of<A: Allocator>(
    alloc: A,
    contacts: &[Contact],
    count: usize,
) -> Result<Vec<(usize, usize), A>, AllocError>
    requires rings { All (λ contact. contact.ring < count) contacts.now }
    requires together { AreTogether contacts.now }
    requires room { count + length contacts.now < 2 ^ 64 }
    ensures graph { IfOk result (λ graph. IsGraphOf count contacts.now graph.items) }
    ensures within { IfOk result (λ graph. All (λ edge. (edge.0 < count + length contacts.now) × (edge.1 < count + length contacts.now)) graph.items) }
{
    let mut graph = Vec::with_capacity(alloc, contacts.len())?;
    let mut node = count;
    // Those so far are there, and the node is that of the last one's point.
    for place in 0..contacts.len() {
        node = next_node(contacts, place, node);
        graph.push((contacts[place].ring, node))?;
    }
    Ok(graph)
}

// The node for the point of the contact at this place, behind that of the one before it.
fn next_node(contacts: &[Contact], place: usize, node: usize) -> usize
    requires place { place < length contacts.now }
    requires room { node + 1 < 2 ^ 64 }
    ensures { GoesOn contacts.now place node result }
{
    if is_another_point(contacts, place) {
        return node + 1;
    }
    node
}

// Whether the contact at this place isn't the first one, and its point isn't that of the one before it.
fn is_another_point(contacts: &[Contact], place: usize) -> bool
    requires { place < length contacts.now }
    ensures { MatchBool result ((0 < place) × IsApartFromLast contacts.now place) (IsWithLast contacts.now place) }
{
    if place == 0 {
        return false;
    }
    contacts[place - 1].point != contacts[place].point
}
