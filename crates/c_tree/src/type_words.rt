//! The words that type names and their parts spell.
ghost use Rattle.std.specs.Prelude.{◌≡◌, ◌∷◌, ◌++◌, [], false, OnOk};
ghost use Rattle.c_base.specs.declared.token.Punctuator.TheVariants as mark;
ghost use Rattle.c_base.specs.declared.token.Word.TheVariants as word;
ghost use Rattle.c_tree.specs.Spelling.{words_of, pieces, pieces_of_all, pieces_behind, pieces_with_commas, pieces_where, sign};
ghost use Rattle.c_tree.specs.Views.{type_name_tree, specifier_tree, enumerator_tree, member_tree, field_tree, declarator_tree, core_tree, suffix_tree, specifiers_of, enumerators_of, members_of, fields_of, suffixes_of, parameters_of, optional_expr, optional_declarator};

use crate::plain_words::{
    attribute, attributes, comma_where, composite_head, ellipsis_where, enum_head, enum_tag,
    identifier, keyword, keywords, literals, mark, pointers, tag,
};
use crate::tree::{Core, Declarator, Enumerator, Expr, Field, Member, Specifier, Suffix, TypeName};
use crate::words::expr;
use c_base::token::{Keyword, Punctuator, Word};
use sqlite_items::Items;
use std::alloc::{AllocError, Global};

// An expression that may be missing.
#[cycle(spelling)]
fn value(alloc: Global, out: &mut Items<Word>, tree: &Option<Expr>) -> Result<(), AllocError>
    ensures { OnOk result (out.new ≡ out.old ++ words_of (pieces_of_all (optional_expr tree.now))) }
{
    match tree {
        None => Ok(()),
        Some(found) => expr(alloc, out, found),
    }
}

// The same, behind a punctuator.
#[cycle(spelling)]
fn value_behind(
    alloc: Global,
    out: &mut Items<Word>,
    punctuator: Punctuator,
    tree: &Option<Expr>,
) -> Result<(), AllocError>
    ensures { OnOk result (out.new ≡ out.old ++ words_of (pieces_behind punctuator (optional_expr tree.now))) }
{
    match tree {
        None => Ok(()),
        Some(found) => {
            mark(out, punctuator)?;
            expr(alloc, out, found)
        }
    }
}

#[cycle(spelling)]
fn declarator_where(
    alloc: Global,
    out: &mut Items<Word>,
    tree: &Option<Declarator>,
) -> Result<(), AllocError>
    ensures { OnOk result (out.new ≡ out.old ++ words_of (pieces_of_all (optional_declarator tree.now))) }
{
    match tree {
        None => Ok(()),
        Some(found) => declarator(alloc, out, found),
    }
}

#[cycle(spelling)]
fn parameters(
    alloc: Global,
    out: &mut Items<Word>,
    behind: bool,
    all: &[TypeName],
) -> Result<(), AllocError>
    ensures { OnOk result (out.new ≡ out.old ++ words_of (pieces_with_commas behind (parameters_of all.now))) }
{
    let mut is_behind = behind;
    for each in all {
        comma_where(out, is_behind)?;
        is_behind = true;
        type_name(alloc, out, each)?;
    }
    Ok(())
}

#[cycle(spelling)]
fn suffix(alloc: Global, out: &mut Items<Word>, tree: &Suffix) -> Result<(), AllocError>
    ensures { OnOk result (out.new ≡ out.old ++ words_of (pieces (suffix_tree tree.now))) }
{
    match tree {
        Suffix::Array {
            span: _,
            qualifiers,
            bound,
        } => {
            mark(out, Punctuator::OpenBracket)?;
            keywords(out, qualifiers.as_slice())?;
            value(alloc, out, bound)?;
            mark(out, Punctuator::CloseBracket)
        }
        Suffix::Function {
            span: _,
            parameters: all,
            variadic,
        } => {
            mark(out, Punctuator::OpenParenthesis)?;
            parameters(alloc, out, false, all.as_slice())?;
            ellipsis_where(out, *variadic)?;
            mark(out, Punctuator::CloseParenthesis)
        }
    }
}

#[cycle(spelling)]
fn suffixes(alloc: Global, out: &mut Items<Word>, all: &[Suffix]) -> Result<(), AllocError>
    ensures { OnOk result (out.new ≡ out.old ++ words_of (pieces_of_all (suffixes_of all.now))) }
{
    for each in all {
        suffix(alloc, out, each)?;
    }
    Ok(())
}

#[cycle(spelling)]
fn core(alloc: Global, out: &mut Items<Word>, tree: &Core) -> Result<(), AllocError>
    ensures { OnOk result (out.new ≡ out.old ++ words_of (pieces (core_tree tree.now))) }
{
    match tree {
        Core::Absent => Ok(()),
        Core::Named { span: _, name } => identifier(alloc, out, name),
        Core::Group { span: _, inner } => {
            mark(out, Punctuator::OpenParenthesis)?;
            declarator(alloc, out, inner.get())?;
            mark(out, Punctuator::CloseParenthesis)
        }
    }
}

/// Adds the words of a declarator.
#[cycle(spelling)]
pub fn declarator(alloc: Global, out: &mut Items<Word>, tree: &Declarator) -> Result<(), AllocError>
    ensures { OnOk result (out.new ≡ out.old ++ words_of (pieces (declarator_tree tree.now))) }
{
    pointers(alloc, out, tree.pointers.as_slice())?;
    core(alloc, out, &tree.core)?;
    suffixes(alloc, out, tree.suffixes.as_slice())
}

#[cycle(spelling)]
fn field(alloc: Global, out: &mut Items<Word>, tree: &Field) -> Result<(), AllocError>
    ensures { OnOk result (out.new ≡ out.old ++ words_of (pieces (field_tree tree.now))) }
{
    match tree {
        Field::Declared {
            span: _,
            declarator: named,
            width,
            attributes: kept,
        } => {
            declarator(alloc, out, named)?;
            value_behind(alloc, out, Punctuator::Colon, width)?;
            attributes(alloc, out, kept.as_slice())
        }
        Field::Padding { span: _, width } => {
            mark(out, Punctuator::Colon)?;
            expr(alloc, out, width)
        }
    }
}

#[cycle(spelling)]
fn fields(
    alloc: Global,
    out: &mut Items<Word>,
    behind: bool,
    all: &[Field],
) -> Result<(), AllocError>
    ensures { OnOk result (out.new ≡ out.old ++ words_of (pieces_with_commas behind (fields_of all.now))) }
{
    let mut is_behind = behind;
    for each in all {
        comma_where(out, is_behind)?;
        is_behind = true;
        field(alloc, out, each)?;
    }
    Ok(())
}

#[cycle(spelling)]
fn member(alloc: Global, out: &mut Items<Word>, tree: &Member) -> Result<(), AllocError>
    ensures { OnOk result (out.new ≡ out.old ++ words_of (pieces (member_tree tree.now))) }
{
    match tree {
        Member::Fields {
            span: _,
            specifiers: all,
            fields: named,
        } => {
            specifiers(alloc, out, all.as_slice())?;
            fields(alloc, out, false, named.as_slice())?;
            mark(out, Punctuator::Semicolon)
        }
        Member::Assertion {
            span: _,
            condition,
            literals: text,
        } => {
            keyword(out, Keyword::StaticAssert)?;
            mark(out, Punctuator::OpenParenthesis)?;
            expr(alloc, out, condition)?;
            mark(out, Punctuator::Comma)?;
            literals(alloc, out, text.as_slice())?;
            mark(out, Punctuator::CloseParenthesis)?;
            mark(out, Punctuator::Semicolon)
        }
    }
}

#[cycle(spelling)]
fn members(alloc: Global, out: &mut Items<Word>, all: &[Member]) -> Result<(), AllocError>
    ensures { OnOk result (out.new ≡ out.old ++ words_of (pieces_of_all (members_of all.now))) }
{
    for each in all {
        member(alloc, out, each)?;
    }
    Ok(())
}

#[cycle(spelling)]
fn enumerator(alloc: Global, out: &mut Items<Word>, tree: &Enumerator) -> Result<(), AllocError>
    ensures { OnOk result (out.new ≡ out.old ++ words_of (pieces (enumerator_tree tree.now))) }
{
    identifier(alloc, out, &tree.name)?;
    value_behind(alloc, out, Punctuator::Assign, &tree.value)
}

#[cycle(spelling)]
fn enumerators(
    alloc: Global,
    out: &mut Items<Word>,
    behind: bool,
    all: &[Enumerator],
) -> Result<(), AllocError>
    ensures { OnOk result (out.new ≡ out.old ++ words_of (pieces_with_commas behind (enumerators_of all.now))) }
{
    let mut is_behind = behind;
    for each in all {
        comma_where(out, is_behind)?;
        is_behind = true;
        enumerator(alloc, out, each)?;
    }
    Ok(())
}

// What stands in the braces of a struct or union, with them.
#[cycle(spelling)]
fn body(alloc: Global, out: &mut Items<Word>, all: &[Member]) -> Result<(), AllocError>
    ensures { OnOk result (out.new ≡ out.old ++ word.Punctuator mark.OpenBrace ∷ words_of (pieces_of_all (members_of all.now)) ++ word.Punctuator mark.CloseBrace ∷ []) }
{
    mark(out, Punctuator::OpenBrace)?;
    members(alloc, out, all)?;
    mark(out, Punctuator::CloseBrace)
}

// What stands in the braces of an enum, with them.
#[cycle(spelling)]
fn constants(
    alloc: Global,
    out: &mut Items<Word>,
    all: &[Enumerator],
    comma: bool,
) -> Result<(), AllocError>
    ensures { OnOk result (out.new ≡ out.old ++ word.Punctuator mark.OpenBrace ∷ words_of (pieces_with_commas false (enumerators_of all.now)) ++ words_of (pieces_where comma (sign mark.Comma ∷ [])) ++ word.Punctuator mark.CloseBrace ∷ []) }
{
    mark(out, Punctuator::OpenBrace)?;
    enumerators(alloc, out, false, all)?;
    comma_where(out, comma)?;
    mark(out, Punctuator::CloseBrace)
}

#[cycle(spelling)]
fn specifier(alloc: Global, out: &mut Items<Word>, tree: &Specifier) -> Result<(), AllocError>
    ensures { OnOk result (out.new ≡ out.old ++ words_of (pieces (specifier_tree tree.now))) }
{
    match tree {
        Specifier::Keyword {
            span: _,
            keyword: word,
        } => keyword(out, *word),
        Specifier::Typedef { span: _, name } => identifier(alloc, out, name),
        Specifier::Attribute(kept) => attribute(alloc, out, kept),
        Specifier::CompositeTag {
            span: _,
            sort,
            attributes: kept,
            tag: name,
        } => {
            composite_head(alloc, out, *sort, kept.as_slice())?;
            identifier(alloc, out, name)
        }
        Specifier::Composite {
            span: _,
            sort,
            attributes: kept,
            tag: name,
            members: all,
            trailing,
        } => {
            composite_head(alloc, out, *sort, kept.as_slice())?;
            tag(alloc, out, name)?;
            body(alloc, out, all.as_slice())?;
            attributes(alloc, out, trailing.as_slice())
        }
        Specifier::EnumTag { span: _, tag: name } => enum_tag(alloc, out, name),
        Specifier::Enum {
            span: _,
            tag: name,
            enumerators: all,
            comma,
        } => {
            enum_head(alloc, out, name)?;
            constants(alloc, out, all.as_slice(), *comma)
        }
    }
}

/// Adds the words of specifiers.
#[cycle(spelling)]
pub fn specifiers(alloc: Global, out: &mut Items<Word>, all: &[Specifier]) -> Result<(), AllocError>
    ensures { OnOk result (out.new ≡ out.old ++ words_of (pieces_of_all (specifiers_of all.now))) }
{
    for each in all {
        specifier(alloc, out, each)?;
    }
    Ok(())
}

#[cycle(spelling)]
pub(crate) fn type_name(
    alloc: Global,
    out: &mut Items<Word>,
    tree: &TypeName,
) -> Result<(), AllocError>
    ensures { OnOk result (out.new ≡ out.old ++ words_of (pieces (type_name_tree tree.now))) }
{
    specifiers(alloc, out, tree.specifiers.as_slice())?;
    declarator_where(alloc, out, &tree.declarator)
}
