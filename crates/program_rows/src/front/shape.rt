//! The shape of a part of a unit: each operator before its operands, in braces, with the parentheses of the text.
use c_tree::{
    AggregateKind, Assignment, Binary, Core, Declarator, Enumerator, Expr, Identifier,
    MemberOperator, Members, Parameter, Part, Specifier, Star, Step, TypeName, Unary, Word,
};
use std::alloc::{AllocError, Global};

/// What a shape is written of.
#[derive(Clone, Copy)]
pub(crate) enum Piece<'a> {
    Text(&'a [u8]),
    Number(u64),
    Expr(&'a Expr),
    Arguments(&'a [Expr]),
    Type(&'a TypeName),
    Specifiers(&'a [Specifier]),
    Rows(&'a [Members]),
    Enumerators(&'a [Enumerator]),
    Declarator(&'a Declarator),
    Declarators(&'a [Declarator]),
    Stars(&'a [Star]),
    Words(&'a [Word]),
    Parts(&'a [Part]),
    Parameters(&'a [Parameter]),
}

use Piece::{
    Arguments, Declarators, Enumerators, Number, Parameters, Parts, Rows, Specifiers, Stars, Text,
    Type, Words,
};

/// A shape in the making: what is written, and what comes next, the last first.
#[derive(Drop)]
struct Writing<'a> {
    out: String,
    next: Vec<Piece<'a>>,
}

type Written = Result<(), AllocError>;

fn unary(operator: Unary) -> &'static [u8] {
    match operator {
        Unary::Increment => b"{++ ",
        Unary::Decrement => b"{-- ",
        Unary::AddressOf => b"{& ",
        Unary::Dereference => b"{* ",
        Unary::Plus => b"{+ ",
        Unary::Minus => b"{- ",
        Unary::Complement => b"{~ ",
        Unary::Not => b"{! ",
        Unary::SizeOf => b"{sizeof ",
    }
}

fn binary(operator: Binary) -> &'static [u8] {
    match operator {
        Binary::Multiply => b"{* ",
        Binary::Divide => b"{/ ",
        Binary::Remainder => b"{% ",
        Binary::Add => b"{+ ",
        Binary::Subtract => b"{- ",
        Binary::ShiftLeft => b"{<< ",
        Binary::ShiftRight => b"{>> ",
        Binary::Less => b"{< ",
        Binary::Greater => b"{> ",
        Binary::LessEqual => b"{<= ",
        Binary::GreaterEqual => b"{>= ",
        Binary::Equal => b"{== ",
        Binary::NotEqual => b"{!= ",
        Binary::BitAnd => b"{& ",
        Binary::BitXor => b"{^ ",
        Binary::BitOr => b"{| ",
        Binary::LogicalAnd => b"{&& ",
        Binary::LogicalOr => b"{|| ",
    }
}

fn assignment(operator: Assignment) -> &'static [u8] {
    match operator {
        Assignment::Assign => b"{= ",
        Assignment::Multiply => b"{*= ",
        Assignment::Divide => b"{/= ",
        Assignment::Remainder => b"{%= ",
        Assignment::Add => b"{+= ",
        Assignment::Subtract => b"{-= ",
        Assignment::ShiftLeft => b"{<<= ",
        Assignment::ShiftRight => b"{>>= ",
        Assignment::BitAnd => b"{&= ",
        Assignment::BitXor => b"{^= ",
        Assignment::BitOr => b"{|= ",
    }
}

fn aggregate(kind: AggregateKind) -> &'static [u8] {
    match kind {
        AggregateKind::Struct => b"struct ",
        AggregateKind::Union => b"union ",
    }
}

/// A tag; `_` where there is none.
fn tag(name: &Option<Identifier>) -> &[u8] {
    match name {
        Some(name) => name.bytes.as_slice(),
        None => b"_",
    }
}

/// What stands between one of a list and those that are left.
fn between<T>(text: &'static [u8], rest: &[T]) -> Piece<'static> {
    if rest.is_empty() {
        Text(b"")
    } else {
        Text(text)
    }
}

impl<'a> Writing<'a> {
    /// Puts pieces before all that comes next.
    fn put(&mut self, pieces: &[Piece<'a>]) -> Written {
        for piece in pieces.iter().rev() {
            self.next.push(*piece)?;
        }
        Ok(())
    }

    fn expr(&mut self, e: &'a Expr) -> Written {
        match e {
            Expr::Name(name) => self.put(&[Text(name.bytes.as_slice())]),
            Expr::Integer(_, value, _) => self.put(&[Number(*value)]),
            Expr::Character(_, _) => self.put(&[Text(b"'")]),
            Expr::String(_) => self.put(&[Text(b"\"")]),
            Expr::Paren(_, e) => self.put(&[Text(b"("), Piece::Expr(e.get()), Text(b")")]),
            Expr::Index(a, _, i) => self.two(b"{[] ", a.get(), i.get()),
            Expr::Call(f, _, arguments) => self.put(&[
                Text(b"{call "),
                Piece::Expr(f.get()),
                Arguments(arguments.as_slice()),
                Text(b"}"),
            ]),
            Expr::Member(e, operator, _, name) => self.put(&[
                Text(match operator {
                    MemberOperator::Dot => b"{. ",
                    MemberOperator::Arrow => b"{-> ",
                }),
                Piece::Expr(e.get()),
                Text(b" "),
                Text(name.get().bytes.as_slice()),
                Text(b"}"),
            ]),
            Expr::Postfix(e, Step::Increment, _) => self.one(b"{after++ ", e.get()),
            Expr::Postfix(e, Step::Decrement, _) => self.one(b"{after-- ", e.get()),
            Expr::Prefix(operator, _, e) => self.one(unary(*operator), e.get()),
            Expr::SizeOfType(_, _, t) => {
                self.put(&[Text(b"{sizeof "), Type(t.get()), Text(b"}")])
            }
            Expr::Cast(_, t, e) => self.put(&[
                Text(b"{cast "),
                Type(t.get()),
                Text(b" "),
                Piece::Expr(e.get()),
                Text(b"}"),
            ]),
            Expr::Infix(operator, a, _, b) => self.two(binary(*operator), a.get(), b.get()),
            Expr::Conditional(c, _, a, b) => self.put(&[
                Text(b"{? "),
                Piece::Expr(c.get()),
                Text(b" "),
                Piece::Expr(a.get()),
                Text(b" "),
                Piece::Expr(b.get()),
                Text(b"}"),
            ]),
            Expr::Assign(operator, a, _, b) => self.two(assignment(*operator), a.get(), b.get()),
            Expr::Comma(a, b) => self.two(b"{, ", a.get(), b.get()),
        }
    }

    /// An operator with one operand.
    fn one(&mut self, operator: &'static [u8], a: &'a Expr) -> Written {
        self.put(&[Text(operator), Piece::Expr(a), Text(b"}")])
    }

    /// An operator with two operands.
    fn two(&mut self, operator: &'static [u8], a: &'a Expr, b: &'a Expr) -> Written {
        self.put(&[
            Text(operator),
            Piece::Expr(a),
            Text(b" "),
            Piece::Expr(b),
            Text(b"}"),
        ])
    }

    fn specifier(&mut self, one: &'a Specifier) -> Written {
        match one {
            Specifier::Keyword(word) => self.put(&[Text(word.keyword.spelling())]),
            Specifier::Typedef(name) => { self.put(&[Text(b"type "), Text(name.bytes.as_slice())]) }
            Specifier::Tagged(kind, _, name) => {
                self.put(&[Text(aggregate(*kind)), Text(name.bytes.as_slice())])
            }
            Specifier::Aggregate(kind, _, name, _, rows) => self.put(&[
                Text(aggregate(*kind)),
                Text(tag(name)),
                Text(b"{"),
                Rows(rows.as_slice()),
                Text(b"}"),
            ]),
            Specifier::Enum(_, name) => { self.put(&[Text(b"enum "), Text(name.bytes.as_slice())]) }
            Specifier::Enumeration(_, name, _, list, _) => self.put(&[
                Text(b"enum "),
                Text(tag(name)),
                Text(b"{"),
                Enumerators(list.as_slice()),
                Text(b"}"),
            ]),
        }
    }

    /// A type name: `<specifiers|declarator>`, the declarator only where there is one.
    fn type_name(&mut self, t: &'a TypeName) -> Written {
        let words = Specifiers(t.specifiers.list.as_slice());
        match &t.declarator {
            Some(d) => self.put(&[
                Text(b"<"),
                words,
                Text(b"|"),
                Piece::Declarator(d),
                Text(b">"),
            ]),
            None => self.put(&[Text(b"<"), words, Text(b">")]),
        }
    }

    /// A declarator: its stars, its core, and its parts.
    fn declarator(&mut self, d: &'a Declarator) -> Written {
        let stars = Stars(d.stars.as_slice());
        let parts = Parts(d.parts.as_slice());
        match &d.core {
            Core::Names(name) => self.put(&[stars, Text(name.bytes.as_slice()), parts]),
            Core::Unnamed => self.put(&[stars, Text(b"_"), parts]),
            Core::Nested(_, inside) => self.put(&[
                stars,
                Text(b"("),
                Piece::Declarator(inside.get()),
                Text(b")"),
                parts,
            ]),
        }
    }

    /// An array or function part.
    fn part(&mut self, one: &'a Part) -> Written {
        match one {
            Part::Array(_, _, None) => self.put(&[Text(b"[]")]),
            Part::Array(_, _, Some(size)) => {
                self.put(&[Text(b"["), Piece::Expr(size), Text(b"]")])
            }
            Part::Function(_, list) => {
                self.put(&[Text(b"("), Parameters(list.as_slice()), Text(b")")])
            }
        }
    }

    fn parameter(&mut self, one: &'a Parameter) -> Written {
        let words = Specifiers(one.specifiers.list.as_slice());
        match &one.declarator {
            Some(d) => self.put(&[words, Text(b"|"), Piece::Declarator(d)]),
            None => self.put(&[words]),
        }
    }

    fn enumerator(&mut self, one: &'a Enumerator) -> Written {
        match one {
            Enumerator::Plain(name) => self.put(&[Text(name.bytes.as_slice())]),
            Enumerator::Valued(name, _, value) => self.put(&[
                Text(name.bytes.as_slice()),
                Text(b"="),
                Piece::Expr(value),
            ]),
        }
    }

    /// The first of a list of the parts of declarations, and then those that are left.
    fn listed(&mut self, piece: Piece<'a>) -> Written {
        match piece {
            Specifiers(list) => match list.split_first() {
                Some((one, rest)) => {
                    self.put(&[between(b",", rest), Specifiers(rest)])?;
                    self.specifier(one)
                }
                None => Ok(()),
            },
            Enumerators(list) => match list.split_first() {
                Some((one, rest)) => {
                    self.put(&[between(b" ", rest), Enumerators(rest)])?;
                    self.enumerator(one)
                }
                None => Ok(()),
            },
            Parameters(list) => match list.split_first() {
                Some((one, rest)) => {
                    self.put(&[between(b" ", rest), Parameters(rest)])?;
                    self.parameter(one)
                }
                None => Ok(()),
            },
            Parts(list) => match list.split_first() {
                Some((one, rest)) => {
                    self.put(&[Parts(rest)])?;
                    self.part(one)
                }
                None => Ok(()),
            },
            other => self.listed_plainly(other),
        }
    }

    /// The same of lists whose members are written in one go.
    fn listed_plainly(&mut self, piece: Piece<'a>) -> Written {
        match piece {
            Arguments(list) => match list.split_first() {
                Some((e, rest)) => self.put(&[Text(b" "), Piece::Expr(e), Arguments(rest)]),
                None => Ok(()),
            },
            Rows(list) => match list.split_first() {
                Some((row, rest)) => self.put(&[
                    Specifiers(row.specifiers.list.as_slice()),
                    Declarators(row.declarators.as_slice()),
                    between(b" ", rest),
                    Rows(rest),
                ]),
                None => Ok(()),
            },
            Declarators(list) => match list.split_first() {
                Some((d, rest)) => {
                    self.put(&[Text(b"|"), Piece::Declarator(d), Declarators(rest)])
                }
                None => Ok(()),
            },
            Stars(list) => match list.split_first() {
                Some((star, rest)) => {
                    self.put(&[Text(b"*"), Words(star.qualifiers.as_slice()), Stars(rest)])
                }
                None => Ok(()),
            },
            Words(list) => match list.split_first() {
                Some((word, rest)) => {
                    self.put(&[Text(word.keyword.spelling()), Text(b" "), Words(rest)])
                }
                None => Ok(()),
            },
            _ => Ok(()),
        }
    }

    /// Writes bytes, each as the character of its number.
    fn bytes(&mut self, bytes: &[u8]) -> Written {
        for byte in bytes {
            self.out.push(char::from(*byte))?;
        }
        Ok(())
    }

    /// Writes a piece, or puts what it is made of before all that comes next.
    fn write(&mut self, piece: Piece<'a>) -> Written {
        match piece {
            Text(text) => self.bytes(text),
            Number(n) => write!(self.out, "{n}"),
            Piece::Expr(e) => self.expr(e),
            Type(t) => self.type_name(t),
            Piece::Declarator(d) => self.declarator(d),
            list => self.listed(list),
        }
    }
}

/// The most pieces of one shape.
const MOST_PIECES: u32 = 100_000;

/// The shape of a part.
pub(crate) fn shape(alloc: Global, part: Piece<'_>) -> Result<String, AllocError> {
    let mut writing = Writing {
        out: String::new(alloc),
        next: vec![in alloc; part]?,
    };
    for _ in 0..MOST_PIECES {
        match writing.next.pop() {
            Some(piece) => writing.write(piece)?,
            None => break,
        }
    }
    Ok(writing.out)
}
