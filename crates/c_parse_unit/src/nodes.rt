//! What stands behind the specifiers of an external declaration, and external declarations from it.
ghost use Rattle.std.specs.Prelude.{◌≡◌, ◌∷◌, [], true, IfOk};
ghost use Rattle.c_tree.specs.Views.{declarator_tree};
ghost use Rattle.grammar.specs.Forms.{Group, Node, Place, Value};
ghost use Rattle.c_grammar.specs.declared.rule.Rule.TheVariants as rule;
ghost use Rattle.c_grammar.specs.Leaves.{ADeclarator};
ghost use Rattle.c_unit_tree.specs.Views.{body_tree, block_item_kids, external_tree, kids, listing, other, some};
ghost use Rattle.c_parse_decl.specs.Headings.{leaf_of};
ghost use Rattle.c_parse_unit.specs.Behind.{declared_kids, others_kids, IsNamed};

use c_base::number::Span;
use c_parse_decl::declarations::Heading;
use c_tree::tree::Declarator;
use c_unit_tree::declaration::{Declaration, DeclaratorRest, InitDeclarator};
use c_unit_tree::unit::{Body, External, Function};
use sqlite_items::Items;
use std::alloc::{AllocError, Global};

/// What stands behind the first declarator of a declaration, and its further declarators.
#[derive(Drop)]
pub struct Others {
    pub first: DeclaratorRest,
    pub more: Vec<InitDeclarator>,
}

/// The declarators of an external declaration, or the declarator and the body of a function definition.
#[derive(Drop)]
pub enum Declared {
    Objects(Items<InitDeclarator>),
    Function { declarator: Declarator, body: Body },
}

pub fn objects_of(declarator: Declarator, others: Others) -> Result<Declared, AllocError>
    ensures kids { IfOk result (λ d. declared_kids d ≡ kids (Value (ADeclarator (declarator_tree declarator)) ∷ other (listing (others_kids others) ∷ []) ∷ [])) }
    ensures named { IfOk result (λ d. IsNamed d) }
{
    let first = InitDeclarator {
        declarator,
        rest: others.first,
    };
    let mut all = others.more;
    all.insert(0, first)?;
    Ok(Declared::Objects(Items::from_vec(all)))
}

pub fn function_of(declarator: Declarator, body: Body) -> Declared
    ensures kids { declared_kids result ≡ kids (Value (ADeclarator (declarator_tree declarator)) ∷ some (some (body_tree body ∷ []) ∷ []) ∷ []) }
    ensures named { IsNamed result }
{
    Declared::Function { declarator, body }
}

/// `;` alone.
pub fn empty_of(span: Span) -> External
    ensures { external_tree result ≡ Node rule.Empty (kids (Place span ∷ [])) }
{
    External::Empty { span }
}

/// Specifiers and `;`.
pub fn bare_of(alloc: Global, span: Span, heading: Heading) -> External
    ensures { external_tree result ≡ Node rule.External (kids (Place span ∷ Value (leaf_of heading) ∷ other [] ∷ [])) }
{
    External::Declaration(Declaration::Declarators {
        span,
        specifiers: heading.specifiers,
        declarators: Items::new(alloc),
    })
}

#[tactic(auto, using(crate::proofs::Steps::external_objects))]
pub fn external_of(span: Span, heading: Heading, declared: Declared) -> External
    requires { IsNamed declared }
    ensures { external_tree result ≡ Node rule.External (kids (Place span ∷ Value (leaf_of heading) ∷ Group true (declared_kids declared) ∷ [])) }
{
    match declared {
        Declared::Objects(declarators) => External::Declaration(Declaration::Declarators {
            span,
            specifiers: heading.specifiers,
            declarators,
        }),
        Declared::Function { declarator, body } => External::Function(Function {
            span,
            specifiers: heading.specifiers,
            declarator,
            body,
        }),
    }
}
