//! Readers of trees that are at most so deep.
ghost use Rattle.std.specs.Prelude.{◌≡◌, ◌<◌, suc, IfOk, IfSome};
ghost use Rattle.c_tree.specs.Views.{declarator_tree, specifier_tree, tree_of, type_name_tree};
ghost use Rattle.c_parse_expr.specs.declared.asking.Ask.TheVariants as ask;
ghost use Rattle.c_parse_expr.specs.Asking.{answer_tree, ask_at, IsAsked, Suits};
ghost use Rattle.c_parse_base.specs.KnownNames.{kept};
ghost use Rattle.c_parse_base.specs.Reads.{IsFound};

use crate::asking::{Answer, Ask};
use c_base::token::Token;
use c_parse_base::below::Below;
use c_parse_base::found::Found;
use c_parse_base::names::TypeNames;
use c_parse_base::purpose::{Before, Purpose};
use c_parse_base::scope::close;
use c_parse_declarators::declarator_rule;
use c_parse_operators::expr_rule;
use c_parse_types::{specifier_rule, type_rule};
use c_tree::tree::{Declarator, Expr, Specifier, TypeName};
use std::alloc::{AllocError, Global};

/// A reader of trees that are at most so deep, by a function that reads what it is asked for.
#[derive(Drop)]
pub struct Reader<F> {
    pub depth: u32,
    pub read: F,
}

// An expression, where one was asked for.
pub fn as_expr(answer: Answer) -> Expr
    requires { (least : _) × Suits (ask.Expr least) answer }
    ensures { tree_of result ≡ answer_tree answer }
{
    match answer {
        Answer::Expr(tree) => tree,
        _ => unreachable!(),
    }
}

// A type name, where one was asked for.
pub fn as_typing(answer: Answer) -> TypeName
    requires { (purpose : _) × Suits (ask.Typing purpose) answer }
    ensures { type_name_tree result ≡ answer_tree answer }
{
    match answer {
        Answer::Typing(tree) => tree,
        _ => unreachable!(),
    }
}

// A specifier, where one was asked for.
pub fn as_specifier(answer: Answer) -> Specifier
    requires { (purpose : _) × (before : _) × Suits (ask.Specifier purpose before) answer }
    ensures { specifier_tree result ≡ answer_tree answer }
{
    match answer {
        Answer::Specifier(tree) => tree,
        _ => unreachable!(),
    }
}

// A declarator, where one was asked for.
pub fn as_declarator(answer: Answer) -> Declarator
    requires { (purpose : _) × (before : _) × Suits (ask.Declarator purpose before) answer }
    ensures { declarator_tree result ≡ answer_tree answer }
{
    match answer {
        Answer::Declarator(tree) => tree,
        _ => unreachable!(),
    }
}

impl<
    'a,
    F: Fn(
        Global,
        &mut TypeNames,
        Ask,
        &'a [Token],
    ) -> Result<Option<Found<'a, Answer>>, AllocError>,
> Reader<F> {
    fn ask(
        &self,
        alloc: Global,
        names: &mut TypeNames,
        ask: Ask,
        tokens: &'a [Token],
    ) -> Result<Option<Found<'a, Answer>>, AllocError>
        requires callable { F.IsAlwaysCallable self.now.read }
        requires tells { (alloc : _) (names : _) (asked : _) (tokens : _) (r : _) (names' : _) → F.post self.now.read alloc names asked tokens r names' → IsAsked self.now.depth asked names.now names'.now tokens.now r }
        ensures { IsAsked self.now.depth ask names.old names.new tokens.now result }
    {
        (self.read)(alloc, names, ask, tokens)
    }
}

impl<
    'a,
    F: Fn(
        Global,
        &mut TypeNames,
        Ask,
        &'a [Token],
    ) -> Result<Option<Found<'a, Answer>>, AllocError>,
> Below<'a> for Reader<F> {
    ghost depth = { λ r. r.depth };

    ghost works = { λ r. F.IsAlwaysCallable r.read × (r.depth < 1000000) × ((alloc : _) (names : _) (asked : _) (tokens : _) (x : _) (names' : _) → F.post r.read alloc names asked tokens x names' → IsAsked r.depth asked names.now names'.now tokens.now x) };

    fn depth(&self) -> u32 {
        self.depth
    }

    fn expr(
        &self,
        alloc: Global,
        names: &mut TypeNames,
        least: u32,
        tokens: &'a [Token],
    ) -> Result<Option<Found<'a, Expr>>, AllocError> {
        match self.ask(alloc, names, Ask::Expr(least), tokens)? {
            None => Ok(None),
            Some(found) => Ok(Some(Found {
                tree: as_expr(found.tree),
                height: found.height,
                rest: found.rest,
            })),
        }
    }

    fn typing(
        &self,
        alloc: Global,
        names: &mut TypeNames,
        purpose: Purpose,
        tokens: &'a [Token],
    ) -> Result<Option<Found<'a, TypeName>>, AllocError> {
        match self.ask(alloc, names, Ask::Typing(purpose), tokens)? {
            None => Ok(None),
            Some(found) => Ok(Some(Found {
                tree: as_typing(found.tree),
                height: found.height,
                rest: found.rest,
            })),
        }
    }

    fn specifier(
        &self,
        alloc: Global,
        names: &mut TypeNames,
        purpose: Purpose,
        before: Before,
        tokens: &'a [Token],
    ) -> Result<Option<Found<'a, Specifier>>, AllocError> {
        match self.ask(alloc, names, Ask::Specifier(purpose, before), tokens)? {
            None => Ok(None),
            Some(found) => Ok(Some(Found {
                tree: as_specifier(found.tree),
                height: found.height,
                rest: found.rest,
            })),
        }
    }

    fn declarator(
        &self,
        alloc: Global,
        names: &mut TypeNames,
        purpose: Purpose,
        before: Before,
        tokens: &'a [Token],
    ) -> Result<Option<Found<'a, Declarator>>, AllocError> {
        match self.ask(alloc, names, Ask::Declarator(purpose, before), tokens)? {
            None => Ok(None),
            Some(found) => Ok(Some(Found {
                tree: as_declarator(found.tree),
                height: found.height,
                rest: found.rest,
            })),
        }
    }
}

// What is asked for, where `below` reads what is a node below it.
fn answer<'a, B: Below<'a>>(
    below: &B,
    alloc: Global,
    names: &mut TypeNames,
    ask: Ask,
    tokens: &'a [Token],
) -> Result<Option<Found<'a, Answer>>, AllocError>
    requires { B.works below.now }
    ensures found { IfOk result (λ r. IsFound answer_tree (ask_at (suc (B.depth below.now)) ask names.old.names tokens.now) names.old.names names.new.names tokens.now r) }
    ensures suits { IfOk result (λ r. IfSome r (λ f. Suits ask f.tree)) }
    ensures kept { kept names.new ≡ kept names.old }
{
    match ask {
        Ask::Expr(least) => match expr_rule(below, alloc, names, least, tokens)? {
            None => Ok(None),
            Some(found) => Ok(Some(Found {
                tree: Answer::Expr(found.tree.into_inner()),
                height: found.height,
                rest: found.rest,
            })),
        },
        Ask::Typing(purpose) => match type_rule(below, alloc, names, purpose, tokens)? {
            None => Ok(None),
            Some(found) => Ok(Some(Found {
                tree: Answer::Typing(found.tree),
                height: found.height,
                rest: found.rest,
            })),
        },
        Ask::Specifier(purpose, before) => {
            match specifier_rule(below, alloc, names, purpose, before, tokens)? {
                None => Ok(None),
                Some(found) => Ok(Some(Found {
                    tree: Answer::Specifier(found.tree),
                    height: found.height,
                    rest: found.rest,
                })),
            }
        }
        Ask::Declarator(purpose, before) => {
            match declarator_rule(below, alloc, names, purpose, before, tokens)? {
                None => Ok(None),
                Some(found) => Ok(Some(Found {
                    tree: Answer::Declarator(found.tree),
                    height: found.height,
                    rest: found.rest,
                })),
            }
        }
    }
}

/// What is asked for, of trees that are at most so deep; where nothing is found, nothing is declared.
pub fn read_at<'a>(
    alloc: Global,
    depth: u32,
    names: &mut TypeNames,
    ask: Ask,
    tokens: &'a [Token],
) -> Result<Option<Found<'a, Answer>>, AllocError>
    requires { depth < 1000000 }
    ensures { IsAsked depth ask names.old names.new tokens.now result }
{
    if depth == 0 {
        return Ok(None);
    }
    let next = depth - 1;
    let below = Reader {
        depth: next,
        read: |alloc: Global, known: &mut TypeNames, asked: Ask, rest|
            requires { next < 1000000 }
            ensures { IsAsked next asked known.old known.new rest.now result }
        { read_at(alloc, next, known, asked, rest) },
    };
    let scope = names.enter();
    let found = answer(&below, alloc, names, ask, tokens);
    close(names, scope, tokens, found)
}
