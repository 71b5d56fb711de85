//! The sweep: what is done at each event, and between them.

ghost use Rattle.std.specs.Prelude.{◌≡◌, ◌<◌, ◌++◌, ◌∷◌, [], List, All, length, IfErr, IfOk, OnOk};
ghost use Rattle.i_tree.specs.declared.Refusal.TheVariants.{OutOfMemory};
ghost use Rattle.event_queue.specs.Queue.{StandsAt};
ghost use Rattle.event_queue.specs.declared.Event.{Event};
ghost use Rattle.event_queue.specs.declared.Task.TheVariants.{End, Begin, Answer};
ghost use Rattle.plane.specs.declared.edge.Edge.{Edge};
ghost use Rattle.plane.specs.declared.columns.Asked.{Asked};
ghost use Rattle.plane.specs.Columns.Asked.{Reaches};
ghost use Rattle.plane.specs.Columns.Steps.{AppendsComparing, Compares, ExchangesComparing, FindsComparing};
ghost use Rattle.plane.specs.Columns.Sweep.{AreMet, CanLookAt, GoesOn, IsNext, IsSorted, IsSwept, IsSweptUpto, LooksAtBoth, moment_of};
ghost use Rattle.plane.specs.Pairs.Pairs.{ArePairs, ArePairsBetween};
ghost use Rattle.plane.specs.SweepLine.Begun.{IsOneOf};
ghost use Rattle.plane.specs.SweepLine.Crossings.{Cross};

use super::events::{events_of, moment_of};
use super::exchanges::{Exchange, Exchanges};
use super::moments::first_above;
use super::status::ExchangeStatus;
use super::{Asked, Found};
use crate::edge::Edge;
use crate::sweep_line::ActiveEdge;
use crate::sweep_line::active::active_edge_of;
use event_queue::{Event, Task};
use i_tree::Refusal;
use i_tree::steps::Counter;
use std::alloc::{AllocError, Allocator};

/// The line of the sweep, the exchanges that are put down, and the pairs that have been told.
#[derive(Drop)]
struct Columns<A: Allocator + Copy> {
    status: ExchangeStatus<A>,
    exchanges: Exchanges<A>,
    crossed: Vec<(usize, usize), A>,
}

/// As `find_by_columns`.
pub fn serve_all<A: Allocator + Copy, C: Counter>(
    alloc: A,
    steps: &mut C,
    edges: &[Edge],
    asked: &[Asked],
) -> Result<Found<A>, Refusal>
    ensures crossed { IfOk result (λ found. ArePairs Cross edges.now found.crossed.items) }
    ensures met { IfOk result (λ found. ArePairsBetween Reaches edges.now asked.now found.met.items) }
    ensures crossed_within { IfOk result (λ found. All (λ pair. (pair.0 < length edges.now) × (pair.1 < length edges.now)) found.crossed.items) }
    ensures met_within { IfOk result (λ found. All (λ pair. (pair.0 < length edges.now) × (pair.1 < length asked.now)) found.met.items) }
    ensures refused { IfErr result (λ cause. cause ≡ OutOfMemory) }
    ensures steps { IfOk result (λ found. FindsComparing C.made steps.old steps.new edges.now asked.now found.crossed.items found.met.items) }
{
    let events = events_of(alloc, edges, asked)?;
    let mut columns = Columns {
        status: ExchangeStatus::new(alloc, edges.len())?,
        exchanges: Exchanges::new(alloc),
        crossed: Vec::new(alloc),
    };
    let mut met = Vec::new(alloc);
    // The events so far are served: the line has what is live, in order but for the exchanges that are put down.
    for event in &events {
        columns.exchange_upto(steps, moment_of(*event))?;
        match event.task {
            Task::End => columns.end(steps, *event)?,
            Task::Begin => columns.begin(
                steps,
                *event,
                active_edge_of(edges[event.place], event.place),
            )?,
            Task::Answer => columns.ask(steps, *event, asked[event.place], &mut met)?,
        }
    }
    let Columns { crossed, .. } = columns;
    Ok(Found { crossed, met })
}

impl<A: Allocator + Copy> Columns<A> {
    /// Exchanges what is due up to the moment.
    fn exchange_upto<C: Counter>(&mut self, steps: &mut C, moment: i64) -> Result<(), AllocError>
        requires { (edges : List Edge) × (done : List Event)
            × IsSweptUpto edges done moment self.old.status self.old.exchanges self.old.crossed.items }
        ensures sorted { OnOk result ((edges : List Edge) (done : List Event)
            → IsSweptUpto edges done moment self.old.status self.old.exchanges self.old.crossed.items
            → IsSorted edges done moment self.new.status self.new.exchanges self.new.crossed.items) }
        ensures steps { OnOk result (ExchangesComparing C.made steps.old steps.new self.old.crossed.items self.new.crossed.items) }
    {
        // Each iteration uses up an exchange, and puts down two at most where it tells a pair, of which each is told once.
        while let Some(exchange) = self.exchanges.next_upto(moment) {
            self.exchange(steps, exchange)?;
        }
        Ok(())
    }

    /// Exchanges two edges, where they are still neighbours, tells them and looks at the new neighbours.
    fn exchange<C: Counter>(&mut self, steps: &mut C, exchange: Exchange) -> Result<(), AllocError>
        requires { (edges : List Edge) × (done : List Event)
            × IsSwept edges done exchange.moment self.old.status (exchange ∷ self.old.exchanges) self.old.crossed.items }
        ensures swept { OnOk result ((edges : List Edge) (done : List Event)
            → IsSwept edges done exchange.moment self.old.status (exchange ∷ self.old.exchanges) self.old.crossed.items
            → IsSwept edges done exchange.moment self.new.status self.new.exchanges self.new.crossed.items) }
        ensures goes_on { OnOk result (GoesOn self.old.crossed.items self.new.crossed.items self.old.exchanges self.new.exchanges) }
        ensures steps { OnOk result (ExchangesComparing C.made steps.old steps.new self.old.crossed.items self.new.crossed.items) }
    {
        let Some(around) = self.status.exchange(exchange.below, exchange.above) else {
            return Ok(());
        };
        self.crossed.push((
            exchange.below.min(exchange.above),
            exchange.below.max(exchange.above),
        ))?;
        self.look(steps, around.under, Some(around.upper), exchange.moment)?;
        self.look(steps, Some(around.lower), around.over, exchange.moment)
    }

    /// Puts down the first exchange of two neighbours from the moment on, if both are there and there is one.
    fn look<C: Counter>(
        &mut self,
        steps: &mut C,
        lower: Option<ActiveEdge>,
        upper: Option<ActiveEdge>,
        from: i64,
    ) -> Result<(), AllocError>
        requires { CanLookAt lower upper from }
        ensures looks { OnOk result (LooksAtBoth lower upper from self.old.exchanges self.new.exchanges) }
        ensures status { self.new.status ≡ self.old.status }
        ensures crossed { self.new.crossed ≡ self.old.crossed }
        ensures steps { Compares C.made steps.old steps.new 0 0 1 }
    {
        let (Some(lower), Some(upper)) = (lower, upper) else {
            return Ok(());
        };
        steps.add_comparison();
        if let Some(moment) = first_above(lower.edge, upper.edge, from) {
            let exchange = Exchange {
                moment,
                below: lower.place,
                above: upper.place,
            };
            self.exchanges.put(exchange)?;
        }
        Ok(())
    }

    /// Takes out the edge that ends, and looks at the two that become neighbours.
    fn end<C: Counter>(&mut self, steps: &mut C, event: Event) -> Result<(), AllocError>
        requires task { event.task ≡ End }
        requires sorted { (edges : List Edge) × (asked : List Asked) × (done : List Event) × IsNext edges asked done event
            × IsSorted edges done (moment_of event) self.old.status self.old.exchanges self.old.crossed.items }
        ensures swept { OnOk result ((edges : List Edge) (asked : List Asked) (done : List Event) → IsNext edges asked done event
            → IsSorted edges done (moment_of event) self.old.status self.old.exchanges self.old.crossed.items
            → IsSwept edges (done ++ event ∷ []) (moment_of event) self.new.status self.new.exchanges self.new.crossed.items) }
        ensures crossed { self.new.crossed.items ≡ self.old.crossed.items }
        ensures steps { Compares C.made steps.old steps.new 0 0 1 }
    {
        let (below, above) = self.status.remove(event.place);
        self.look(steps, below, above, moment_of(event))
    }

    /// Puts in the edge that begins, and looks at it and each neighbour.
    fn begin<C: Counter>(
        &mut self,
        steps: &mut C,
        event: Event,
        beginning: ActiveEdge,
    ) -> Result<(), Refusal>
        requires task { event.task ≡ Begin }
        requires place { beginning.place ≡ event.place }
        requires sorted { (edges : List Edge) × (asked : List Asked) × (done : List Event) × IsNext edges asked done event
            × IsOneOf edges beginning
            × IsSorted edges done (moment_of event) self.old.status self.old.exchanges self.old.crossed.items }
        ensures swept { OnOk result ((edges : List Edge) (asked : List Asked) (done : List Event) → IsNext edges asked done event
            → IsOneOf edges beginning
            → IsSorted edges done (moment_of event) self.old.status self.old.exchanges self.old.crossed.items
            → IsSwept edges (done ++ event ∷ []) (moment_of event) self.new.status self.new.exchanges self.new.crossed.items) }
        ensures refused { IfErr result (λ cause. cause ≡ OutOfMemory) }
        ensures crossed { OnOk result (self.new.crossed.items ≡ self.old.crossed.items) }
        ensures steps { OnOk result (Compares C.made steps.old steps.new (length self.old.status.edges) 1 2) }
    {
        let (below, above) = self.status.insert(steps, beginning)?;
        let moment = moment_of(event);
        self.look(steps, below, Some(beginning), moment)?;
        self.look(steps, Some(beginning), above, moment)?;
        Ok(())
    }

    /// Appends the pair of each edge that reaches what is asked, and of that.
    fn ask<C: Counter>(
        &self,
        steps: &mut C,
        event: Event,
        what: Asked,
        met: &mut Vec<(usize, usize), A>,
    ) -> Result<(), AllocError>
        requires task { event.task ≡ Answer }
        requires sorted { (edges : List Edge) × (asked : List Asked) × (done : List Event) × IsNext edges asked done event
            × StandsAt asked event.place what
            × IsSorted edges done (moment_of event) self.now.status self.now.exchanges self.now.crossed.items }
        ensures met { OnOk result ((edges : List Edge) (asked : List Asked) (done : List Event) → IsNext edges asked done event
            → StandsAt asked event.place what
            → IsSorted edges done (moment_of event) self.now.status self.now.exchanges self.now.crossed.items
            → AreMet edges asked done met.old.items → AreMet edges asked (done ++ event ∷ []) met.new.items) }
        ensures steps { OnOk result (AppendsComparing C.made steps.old steps.new (length self.now.status.edges) 1 met.old.items met.new.items) }
    {
        self.status.append_within(steps, what, event.place, met)
    }
}
