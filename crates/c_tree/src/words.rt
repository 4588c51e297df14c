//! Which words a tree spells.
ghost use Rattle.std.specs.Prelude.{◌≡◌, ◌∷◌, ◌++◌, [], OnOk, IfOk};
ghost use Rattle.c_base.specs.declared.token.Keyword.TheVariants as key;
ghost use Rattle.c_base.specs.declared.token.Punctuator.TheVariants as mark;
ghost use Rattle.c_base.specs.declared.token.Word.TheVariants as word;
ghost use Rattle.c_tree.specs.Spelling.{words_of, pieces, pieces_of_all, pieces_behind, pieces_with_commas, spell};
ghost use Rattle.c_tree.specs.Views.{tree_of, part_tree, exprs_of, parts_of, operands_of, type_name_tree};

use crate::plain_words::{comma_where, identifier, keyword, mark, prefix, text, type_operator};
use crate::tree::{Expr, Operand, PostfixPart, TypeName};
use crate::type_words::type_name;
use c_base::name::Name;
use c_base::token::{Keyword, Punctuator, Word};
use sqlite_items::Items;
use std::alloc::{AllocError, Global};

#[cycle(spelling)]
fn exprs(alloc: Global, out: &mut Items<Word>, behind: bool, all: &[Expr]) -> Result<(), AllocError>
    ensures { OnOk result (out.new ≡ out.old ++ words_of (pieces_with_commas behind (exprs_of all.now))) }
{
    let mut is_behind = behind;
    for each in all {
        comma_where(out, is_behind)?;
        is_behind = true;
        expr(alloc, out, each)?;
    }
    Ok(())
}

#[cycle(spelling)]
fn part(alloc: Global, out: &mut Items<Word>, part: &PostfixPart) -> Result<(), AllocError>
    ensures { OnOk result (out.new ≡ out.old ++ words_of (pieces (part_tree part.now))) }
{
    match part {
        PostfixPart::Index(index) => {
            mark(out, Punctuator::OpenBracket)?;
            expr(alloc, out, index)?;
            mark(out, Punctuator::CloseBracket)
        }
        PostfixPart::Call {
            opening: _,
            arguments,
        } => {
            mark(out, Punctuator::OpenParenthesis)?;
            exprs(alloc, out, false, arguments.as_slice())?;
            mark(out, Punctuator::CloseParenthesis)
        }
        PostfixPart::Member(name) => {
            mark(out, Punctuator::Dot)?;
            identifier(alloc, out, name)
        }
        PostfixPart::Arrow(name) => {
            mark(out, Punctuator::Arrow)?;
            identifier(alloc, out, name)
        }
        PostfixPart::Increment => mark(out, Punctuator::Increment),
        PostfixPart::Decrement => mark(out, Punctuator::Decrement),
    }
}

#[cycle(spelling)]
fn parts(alloc: Global, out: &mut Items<Word>, all: &[PostfixPart]) -> Result<(), AllocError>
    ensures { OnOk result (out.new ≡ out.old ++ words_of (pieces_of_all (parts_of all.now))) }
{
    for each in all {
        part(alloc, out, each)?;
    }
    Ok(())
}

#[cycle(spelling)]
fn operands(alloc: Global, out: &mut Items<Word>, all: &[Operand]) -> Result<(), AllocError>
    ensures { OnOk result (out.new ≡ out.old ++ words_of (pieces_of_all (operands_of all.now))) }
{
    for each in all {
        mark(out, each.operator.punctuator())?;
        expr(alloc, out, &each.operand)?;
    }
    Ok(())
}

/// Adds the words of an expression.
#[cycle(spelling)]
pub fn expr(alloc: Global, out: &mut Items<Word>, tree: &Expr) -> Result<(), AllocError>
    ensures { OnOk result (out.new ≡ out.old ++ words_of (pieces (tree_of tree.now))) }
{
    match tree {
        Expr::Name { span: _, name } => identifier(alloc, out, name),
        Expr::Integer { span: _, constant } => out.push(Word::Integer(*constant)),
        Expr::Floating { span: _ } => out.push(Word::Floating),
        Expr::Character { span: _, byte } => out.push(Word::Character(*byte)),
        Expr::Text {
            span,
            literals: all,
        } => text(alloc, out, all.as_slice(), *span),
        Expr::Parenthesised { span: _, inner } => enclosed(alloc, out, inner.get()),
        Expr::Postfix {
            span: _,
            first,
            parts: all,
        } => {
            expr(alloc, out, first.get())?;
            parts(alloc, out, all.as_slice())
        }
        Expr::Prefix {
            span: _,
            operator,
            operand,
        } => {
            prefix(out, *operator)?;
            expr(alloc, out, operand.get())
        }
        Expr::OfType {
            span: _,
            operator,
            type_name: asked,
        } => {
            type_operator(out, *operator)?;
            in_parentheses(alloc, out, asked.get())
        }
        Expr::Offsetof {
            span: _,
            type_name: asked,
            member,
        } => offset(alloc, out, asked.get(), member),
        Expr::Cast {
            span: _,
            type_name: target,
            operand,
        } => {
            in_parentheses(alloc, out, target.get())?;
            expr(alloc, out, operand.get())
        }
        Expr::Run {
            span: _,
            first,
            more,
        } => {
            expr(alloc, out, first.get())?;
            operands(alloc, out, more.as_slice())
        }
        Expr::Conditional {
            span: _,
            condition,
            when_true,
            when_false,
        } => {
            expr(alloc, out, condition.get())?;
            behind(alloc, out, Punctuator::Question, when_true.get())?;
            behind(alloc, out, Punctuator::Colon, when_false.get())
        }
        Expr::Assignment {
            span: _,
            target,
            operator,
            value,
        } => {
            expr(alloc, out, target.get())?;
            behind(alloc, out, operator.punctuator(), value.get())
        }
        Expr::Comma {
            span: _,
            first,
            more,
        } => {
            expr(alloc, out, first.get())?;
            exprs(alloc, out, true, more.as_slice())
        }
    }
}

// An expression in parentheses.
#[cycle(spelling)]
fn enclosed(alloc: Global, out: &mut Items<Word>, inner: &Expr) -> Result<(), AllocError>
    ensures { OnOk result (out.new ≡ out.old ++ word.Punctuator mark.OpenParenthesis ∷ words_of (pieces (tree_of inner.now)) ++ word.Punctuator mark.CloseParenthesis ∷ []) }
{
    mark(out, Punctuator::OpenParenthesis)?;
    expr(alloc, out, inner)?;
    mark(out, Punctuator::CloseParenthesis)
}

// An expression behind a punctuator.
#[cycle(spelling)]
fn behind(
    alloc: Global,
    out: &mut Items<Word>,
    punctuator: Punctuator,
    tree: &Expr,
) -> Result<(), AllocError>
    ensures { OnOk result (out.new ≡ out.old ++ word.Punctuator punctuator ∷ words_of (pieces (tree_of tree.now))) }
{
    mark(out, punctuator)?;
    expr(alloc, out, tree)
}

// The place of a member in a type.
#[cycle(spelling)]
fn offset(
    alloc: Global,
    out: &mut Items<Word>,
    asked: &TypeName,
    member: &Name,
) -> Result<(), AllocError>
    ensures { OnOk result (out.new ≡ out.old ++ word.Keyword key.BuiltinOffsetof ∷ word.Punctuator mark.OpenParenthesis ∷ words_of (pieces (type_name_tree asked.now)) ++ word.Punctuator mark.Comma ∷ word.Identifier member.now ∷ word.Punctuator mark.CloseParenthesis ∷ []) }
{
    keyword(out, Keyword::BuiltinOffsetof)?;
    mark(out, Punctuator::OpenParenthesis)?;
    type_name(alloc, out, asked)?;
    mark(out, Punctuator::Comma)?;
    identifier(alloc, out, member)?;
    mark(out, Punctuator::CloseParenthesis)
}

// A type name in parentheses.
#[cycle(spelling)]
fn in_parentheses(alloc: Global, out: &mut Items<Word>, name: &TypeName) -> Result<(), AllocError>
    ensures { OnOk result (out.new ≡ out.old ++ word.Punctuator mark.OpenParenthesis ∷ words_of (pieces (type_name_tree name.now)) ++ word.Punctuator mark.CloseParenthesis ∷ []) }
{
    mark(out, Punctuator::OpenParenthesis)?;
    type_name(alloc, out, name)?;
    mark(out, Punctuator::CloseParenthesis)
}

impl Expr {
    /// The words that the expression spells.
    pub fn spell(&self, alloc: Global) -> Result<Items<Word>, AllocError>
        ensures { IfOk result (λ words. words ≡ spell (tree_of self.now)) }
    {
        let mut words = Items::new(alloc);
        expr(alloc, &mut words, self)?;
        Ok(words)
    }
}
