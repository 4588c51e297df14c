//! How many nodes terms, predicates and contracts have.
ghost use Rattle.std.specs.Prelude.{◌≡◌, ◌<◌, ◌^◌, suc, ◌+◌};
ghost use Rattle.c_typed_term.specs.Nodes as nodes;

use crate::contract::{TAssigns, TBehaviour, TContract};
use crate::predicate::{Quantified, TPointers, TPred, TRange, TRelation};
use crate::term::{TTerm, TTermOperand, TTermPlace, TTermRoot, TTermStep};
use c_types::count::{with, with_one};
use sqlite_items::Items;

#[cycle(counting_terms)]
fn of_operands(all: &[TTermOperand]) -> u64
    ensures { nodes.nodes_of_operands all.now < 2 ^ 62 → result ≡ nodes.nodes_of_operands all.now }
{
    let mut total: u64 = 0;
    for each in all {
        total = with(total, with_one(each.operand.nodes()));
    }
    total
}

#[cycle(counting_terms)]
fn of_steps(all: &[TTermStep]) -> u64
    ensures { nodes.nodes_of_steps all.now < 2 ^ 62 → result ≡ nodes.nodes_of_steps all.now }
{
    let mut total: u64 = 0;
    for each in all {
        total = with(total, of_step(each));
    }
    total
}

#[cycle(counting_terms)]
fn of_step(step: &TTermStep) -> u64
    ensures { nodes.nodes_of_step step.now < 2 ^ 62 → result ≡ nodes.nodes_of_step step.now }
{
    match step {
        TTermStep::Member(_, _) => 1,
        TTermStep::Element(term, _, _) => with_one(term.get().nodes()),
        TTermStep::Follow(_) => 0,
        TTermStep::Beyond(term, _) => with_one(term.get().nodes()),
    }
}

#[cycle(counting_terms)]
fn of_root(root: &TTermRoot) -> u64
    ensures { nodes.nodes_of_root root.now < 2 ^ 62 → result ≡ nodes.nodes_of_root root.now }
{
    match root {
        TTermRoot::Object(_) => 1,
        TTermRoot::Formal(_) => 1,
        TTermRoot::Deref(term, _) => with_one(term.get().nodes()),
        TTermRoot::Result(_) => 1,
        TTermRoot::Slot(_, _) => 1,
    }
}

#[cycle(counting_terms)]
fn of_place(place: &TTermPlace) -> u64
    ensures { nodes.nodes_of_place place.now < 2 ^ 62 → result ≡ nodes.nodes_of_place place.now }
{
    with(of_root(&place.root), of_steps(place.steps.as_slice()))
}

impl TTerm {
    /// How many nodes the term has. At 2^62 and above it is no promise.
    #[cycle(counting_terms)]
    pub fn nodes(&self) -> u64
        ensures { nodes.nodes_of_term self.now < 2 ^ 62 → result ≡ nodes.nodes_of_term self.now }
    {
        match self {
            TTerm::Number(_) => 1,
            TTerm::Bound(_) => 1,
            TTerm::Null => 1,
            TTerm::Negate(term) => with_one(term.get().nodes()),
            TTerm::Run(first, more) => with(first.get().nodes(), of_operands(more.as_slice())),
            TTerm::Value(place, _) => of_place(place.get()),
            TTerm::Address(place, _) => with_one(of_place(place.get())),
            TTerm::Decay(place, _) => of_place(place.get()),
            TTerm::Cast(_, term) => with_one(term.get().nodes()),
            TTerm::At(_, term) => with_one(term.get().nodes()),
        }
    }
}

fn of_range(range: &Option<TRange>) -> u64
    ensures { nodes.nodes_of_range range.now < 2 ^ 62 → result ≡ nodes.nodes_of_range range.now }
{
    match range {
        None => 0,
        Some(range) => with(range.low.get().nodes(), range.high.get().nodes()),
    }
}

fn of_pointers(pointers: &TPointers) -> u64
    ensures { nodes.nodes_of_pointers pointers.now < 2 ^ 62 → result ≡ nodes.nodes_of_pointers pointers.now }
{
    with(pointers.first.get().nodes(), of_range(&pointers.range))
}

fn of_all_pointers(all: &[TPointers]) -> u64
    ensures { nodes.nodes_of_all_pointers all.now < 2 ^ 62 → result ≡ nodes.nodes_of_all_pointers all.now }
{
    let mut total: u64 = 0;
    for each in all {
        total = with(total, of_pointers(each));
    }
    total
}

fn of_relations(all: &[TRelation]) -> u64
    ensures { nodes.nodes_of_relations all.now < 2 ^ 62 → result ≡ nodes.nodes_of_relations all.now }
{
    let mut total: u64 = 0;
    for each in all {
        total = with(total, with_one(each.right.get().nodes()));
    }
    total
}

#[cycle(counting_predicates)]
fn of_predicates(all: &[TPred]) -> u64
    ensures { nodes.nodes_of_predicates all.now < 2 ^ 62 → result ≡ nodes.nodes_of_predicates all.now }
{
    let mut total: u64 = 0;
    for each in all {
        total = with(total, each.nodes());
    }
    total
}

#[cycle(counting_predicates)]
fn of_quantified(quantified: &Quantified) -> u64
    ensures { nodes.nodes_of_quantified quantified.now < 2 ^ 62 → result ≡ nodes.nodes_of_quantified quantified.now }
{
    let bounds = with(quantified.high.get().nodes(), quantified.body.get().nodes());
    with_one(with(quantified.low.get().nodes(), bounds))
}

impl TPred {
    /// How many nodes the predicate has, with those of its terms. At 2^62 and above it is no promise.
    #[cycle(counting_predicates)]
    pub fn nodes(&self) -> u64
        ensures { nodes.nodes_of_predicate self.now < 2 ^ 62 → result ≡ nodes.nodes_of_predicate self.now }
    {
        match self {
            TPred::Constant(_) => 1,
            TPred::Relations(first, more) => with(
                first.get().nodes(),
                of_relations(more.as_slice()),
            ),
            TPred::Not(p) => with_one(p.get().nodes()),
            TPred::All(p, more) => with(
                p.get().nodes(),
                with(of_predicates(more.as_slice()), more.len() as u64),
            ),
            TPred::Any(p, more) => with(
                p.get().nodes(),
                with(of_predicates(more.as_slice()), more.len() as u64),
            ),
            TPred::Implies(p, q) => with_one(with(p.get().nodes(), q.get().nodes())),
            TPred::Equivalent(p, more) => with(
                p.get().nodes(),
                with(of_predicates(more.as_slice()), more.len() as u64),
            ),
            TPred::Choice(t, p, q) => with_one(with(
                t.get().nodes(),
                with(p.get().nodes(), q.get().nodes()),
            )),
            TPred::Access(_, pointers) => with_one(of_pointers(pointers.get())),
            TPred::Separated(all) => with_one(of_all_pointers(all.as_slice())),
            TPred::Quantified(quantified) => of_quantified(quantified.get()),
        }
    }
}

fn of_terms(all: &[TTerm]) -> u64
    ensures { nodes.nodes_of_terms all.now < 2 ^ 62 → result ≡ nodes.nodes_of_terms all.now }
{
    let mut total: u64 = 0;
    for each in all {
        total = with(total, each.nodes());
    }
    total
}

fn of_sources(sources: &Option<Items<TTerm>>) -> u64
    ensures { nodes.nodes_of_sources sources.now < 2 ^ 62 → result ≡ nodes.nodes_of_sources sources.now }
{
    match sources {
        None => 0,
        Some(sources) => of_terms(sources.as_slice()),
    }
}

fn of_assigns(all: &[TAssigns]) -> u64
    ensures { nodes.nodes_of_all_assigns all.now < 2 ^ 62 → result ≡ nodes.nodes_of_all_assigns all.now }
{
    let mut total: u64 = 0;
    for each in all {
        total = with(
            total,
            with(
                of_all_pointers(each.locations.as_slice()),
                of_sources(&each.sources),
            ),
        );
    }
    total
}

fn of_behaviours(all: &[TBehaviour]) -> u64
    ensures { nodes.nodes_of_behaviours all.now < 2 ^ 62 → result ≡ nodes.nodes_of_behaviours all.now }
{
    let mut total: u64 = 0;
    for each in all {
        let conditions = with(
            of_predicates(each.preconditions.as_slice()),
            of_predicates(each.postconditions.as_slice()),
        );
        total = with(
            total,
            with(of_predicates(each.assumptions.as_slice()), conditions),
        );
    }
    total
}

impl TContract {
    /// How many nodes the contract has. At 2^62 and above it is no promise.
    pub fn nodes(&self) -> u64
        ensures { nodes.nodes_of_contract self.now < 2 ^ 62 → result ≡ nodes.nodes_of_contract self.now }
    {
        let after = with(
            of_predicates(self.postconditions.as_slice()),
            of_behaviours(self.behaviours.as_slice()),
        );
        let assigned = with(of_assigns(self.assigns.as_slice()), after);
        with(of_predicates(self.preconditions.as_slice()), assigned)
    }
}
