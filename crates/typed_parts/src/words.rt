//! What each word does.

use crate::builder::Builder;
use crate::types::Of;
use c_base::integer::IntKind;
use c_base::operators::{BinOp, UnOp};
use c_typed_stmt::stmt::LoopSort;
use c_types::duplicate::Mem;

fn arithmetic_of(word: &str) -> Option<BinOp> {
    match word {
        "+" => Some(BinOp::Add),
        "-" => Some(BinOp::Sub),
        "*" => Some(BinOp::Mul),
        "/" => Some(BinOp::Div),
        "%" => Some(BinOp::Rem),
        "&" => Some(BinOp::And),
        "|" => Some(BinOp::Or),
        "^" => Some(BinOp::Xor),
        "<<" => Some(BinOp::Shl),
        ">>" => Some(BinOp::Shr),
        _ => None,
    }
}

fn comparison_of(word: &str) -> Option<BinOp> {
    match word {
        "<" => Some(BinOp::Lt),
        "<=" => Some(BinOp::Le),
        ">" => Some(BinOp::Gt),
        ">=" => Some(BinOp::Ge),
        "==" => Some(BinOp::Eq),
        "!=" => Some(BinOp::Ne),
        _ => None,
    }
}

fn binary_of(word: &str) -> Option<BinOp> {
    match arithmetic_of(word) {
        Some(op) => Some(op),
        None => comparison_of(word),
    }
}

fn kind_of(word: &str) -> Option<IntKind> {
    match word {
        "int" => Some(IntKind::Int),
        "unsigned" => Some(IntKind::UInt),
        "char" => Some(IntKind::Char),
        "byte" => Some(IntKind::UChar),
        "short" => Some(IntKind::Short),
        "long" => Some(IntKind::Long),
        "word" => Some(IntKind::ULong),
        "bool" => Some(IntKind::Bool),
        _ => None,
    }
}

/// The type that the word names.
pub fn of_word(word: &str) -> Option<Of> {
    match word {
        "void" => Some(Of::Void),
        "struct" => Some(Of::Struct),
        "union" => Some(Of::Union),
        "int[3]" => Some(Of::ThreeInts),
        "int*" => Some(Of::ToInt),
        "char*" => Some(Of::ToChar),
        "union*" => Some(Of::ToUnion),
        "int(*)()" => Some(Of::ToFunction),
        _ => match kind_of(word) {
            Some(kind) => Some(Of::Int(kind)),
            None => None,
        },
    }
}

fn unary_of(word: &str) -> Option<UnOp> {
    match word {
        "neg" => Some(UnOp::Neg),
        "!" => Some(UnOp::Not),
        "~" => Some(UnOp::Compl),
        _ => None,
    }
}

/// What stands between parentheses.
fn cast_of(word: &str) -> Option<&str> {
    word.strip_prefix("(")?.strip_suffix(")")
}

fn number_of(word: &str) -> Option<i128> {
    match word.parse::<i128>() {
        Ok(n) => Some(n),
        Err(_) => None,
    }
}

impl Builder {
    /// Builds what the words say.
    pub fn read(&mut self, text: &str) -> Mem<()> {
        for word in text.split_whitespace() {
            self.word(word)?;
        }
        Ok(())
    }

    fn word(&mut self, word: &str) -> Mem<()> {
        if let Some(n) = number_of(word) {
            return self.constant(n);
        }
        if let Some(op) = binary_of(word) {
            return self.binary(op);
        }
        if let Some(op) = unary_of(word) {
            return self.unary(op);
        }
        match word.as_bytes() {
            [letter] if letter.is_ascii_lowercase() => self.object(*letter),
            _ => self.conversion(word),
        }
    }

    /// A cast, an implied conversion, or anything else.
    fn conversion(&mut self, word: &str) -> Mem<()> {
        if let Some(inner) = cast_of(word) {
            if let Some(to) = of_word(inner) {
                return self.convert(true, to);
            }
        }
        match of_word(word) {
            Some(to) => self.convert(false, to),
            None => self.operation(word),
        }
    }

    fn operation(&mut self, word: &str) -> Mem<()> {
        match word {
            "=" => self.assign(),
            "&&" => self.logic(true),
            "||" => self.logic(false),
            "?:" => self.conditional(),
            "," => self.comma(),
            "++x" => self.step_before(true),
            "--x" => self.step_before(false),
            "x++" => self.step_after(true),
            "x--" => self.step_after(false),
            "sizeof" => self.size_of(),
            "set?" => self.is_set(),
            "addr" => self.address(),
            _ => self.place(word),
        }
    }

    fn place(&mut self, word: &str) -> Mem<()> {
        match word {
            ".0" => self.member(0),
            ".1" => self.member(1),
            "[]" => self.element(false),
            "[]end" => self.element(true),
            "in[]" => self.element_before(),
            "->" => self.follow(false),
            "volatile->" => self.follow(true),
            "deref" => self.deref(),
            "call/0" => self.call(0),
            "call/1" => self.call(1),
            _ => self.statement(word),
        }
    }

    fn statement(&mut self, word: &str) -> Mem<()> {
        match word {
            ";" => self.expression(),
            "init" => self.initialised(false),
            "init0" => self.initialised(true),
            "text" => self.text(),
            "return" => self.returns(),
            "{" => self.open(),
            "if" => self.if_then(),
            "else" => self.otherwise(),
            "while" => self.turns(LoopSort::While),
            "do" => self.turns(LoopSort::Do),
            "for" => self.for_loop(),
            "for(;;)" => self.forever(),
            _ => self.marked(word),
        }
    }

    fn marked(&mut self, word: &str) -> Mem<()> {
        match word {
            "switch" => self.switch(),
            "case" => {
                let value = self.pop_number();
                self.case(Some(value))
            }
            "default" => self.case(None),
            "joins" => {
                self.joins = true;
                Ok(())
            }
            _ => self.named(word),
        }
    }

    /// `a:`, `goto:a`, `}` with the objects of the block, a compound assignment, and statements of one word.
    fn named(&mut self, word: &str) -> Mem<()> {
        if let Some(letters) = word.strip_prefix("}") {
            return self.close(letters.as_bytes());
        }
        if let Some(name) = word.strip_prefix("goto:") {
            return self.goto(name);
        }
        if let Some(name) = word.strip_suffix(":") {
            return self.label(name);
        }
        match word.strip_suffix("=") {
            None => self.bare(word),
            Some(operator) => self.compound(arithmetic_of(operator).unwrap_or(BinOp::Add)),
        }
    }
}
