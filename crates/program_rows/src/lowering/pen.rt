//! Writing the parts of instructions.
use c_types::{TypeShape, Types};
use cc_base::{NoMemory, NodeId, Place, TypeId};
use cil_form::{Comparison, Object, Operator, Target, Temp, Work};
use std::alloc::Global;

/// A text in the making, with the types that it names. It is told here, and not by each answer, that memory was wanted.
#[derive(Drop)]
pub(crate) struct Pen<'a> {
    out: String,
    types: &'a Types,
    /// Whether nodes are written.
    has_nodes: bool,
    /// Memory was there so far.
    is_fine: bool,
}

/// The name of an integer type of the size and sign.
fn integer_name(bytes: u64, signed: bool) -> &'static str {
    match (bytes, signed) {
        (1, true) => "char",
        (1, false) => "unsigned char",
        (2, true) => "short",
        (2, false) => "unsigned short",
        (4, true) => "int",
        (4, false) => "unsigned int",
        (8, true) => "long",
        (8, false) => "unsigned long",
        _ => "other",
    }
}

fn comparison_sign(comparison: Comparison) -> &'static str {
    match comparison {
        Comparison::Equal => "==",
        Comparison::Different => "!=",
        Comparison::Less => "<",
        Comparison::LessOrEqual => "<=",
        Comparison::Greater => ">",
        Comparison::GreaterOrEqual => ">=",
    }
}

fn operator_sign(operator: Operator) -> &'static str {
    match operator {
        Operator::Add => "+",
        Operator::Subtract => "-",
        Operator::Multiply => "*",
        Operator::Divide => "/",
        Operator::Remainder => "%",
        Operator::And => "&",
        Operator::Or => "|",
        Operator::ExclusiveOr => "^",
        Operator::ShiftLeft => "<<",
        Operator::ShiftRight => ">>",
        Operator::Compare(comparison) => comparison_sign(comparison),
    }
}

impl<'a> Pen<'a> {
    /// Nothing is written yet.
    pub(crate) fn new(alloc: Global, types: &'a Types, has_nodes: bool) -> Pen<'a> {
        Pen {
            out: String::new(alloc),
            types,
            has_nodes,
            is_fine: true,
        }
    }

    /// What is written.
    pub(crate) fn done(self) -> anyhow::Result<String> {
        if self.is_fine {
            Ok(self.out)
        } else {
            Err(NoMemory.into())
        }
    }

    pub(crate) fn text(&mut self, text: &str) {
        if self.out.push_str(text).is_err() {
            self.is_fine = false;
        }
    }

    pub(crate) fn number(&mut self, n: i128) {
        if write!(self.out, "{n}").is_err() {
            self.is_fine = false;
        }
    }

    /// Begins a line, this deep.
    pub(crate) fn line(&mut self, depth: u32) {
        self.text("\n");
        for _ in 0..depth {
            self.text("    ");
        }
    }

    /// A temporary.
    pub(crate) fn temp(&mut self, temp: Temp) {
        match temp {
            Temp::Value(n) => {
                self.text("v");
                self.number(i128::from(n));
            }
            Temp::Switch(n) => {
                self.text("s");
                self.number(i128::from(n));
            }
            Temp::Work(Work::First) => self.text("w0"),
            Temp::Work(Work::Second) => self.text("w1"),
        }
    }

    /// A temporary behind a word.
    pub(crate) fn at_temp(&mut self, word: &str, temp: Temp) {
        self.text(word);
        self.temp(temp);
    }

    /// The temporary that an instruction of a name sets.
    pub(crate) fn set(&mut self, into: Temp, name: &str) {
        self.temp(into);
        self.text(" = ");
        self.text(name);
    }

    /// The same, with an operand.
    pub(crate) fn set_by(&mut self, into: Temp, name: &str, operand: Temp) {
        self.set(into, name);
        self.at_temp(" ", operand);
    }

    /// An object.
    pub(crate) fn object(&mut self, object: Object) {
        match object {
            Object::Static(n) => {
                self.text("static ");
                self.number(i128::from(n.0));
            }
            Object::Variable(n) => {
                self.text("variable ");
                self.number(i128::from(n.0));
            }
        }
    }

    /// A node behind a word, where nodes are written.
    pub(crate) fn node(&mut self, word: &str, node: NodeId) {
        if self.has_nodes {
            self.text(word);
            self.number(i128::from(node.0));
        }
    }

    /// Where a store or a copy goes.
    pub(crate) fn target(&mut self, target: Target) {
        match target {
            Target::Pointer { pointer, node } => {
                self.at_temp(" to ", pointer);
                self.node(", node ", node);
            }
            Target::Part {
                object,
                home,
                offset,
                ..
            } => {
                self.text(" to ");
                self.object(object);
                self.node(", home ", home);
                self.text(" from byte ");
                self.number(i128::from(offset));
            }
        }
    }

    /// A place behind a word.
    pub(crate) fn place(&mut self, word: &str, place: Place) {
        self.text(word);
        self.number(i128::from(place.line));
        self.text(":");
        self.number(i128::from(place.col));
    }

    pub(crate) fn comparison(&mut self, comparison: Comparison) {
        self.text(" ");
        self.text(comparison_sign(comparison));
    }

    pub(crate) fn operator(&mut self, operator: Operator) {
        self.text(" ");
        self.text(operator_sign(operator));
    }

    /// A type behind a word.
    pub(crate) fn ty(&mut self, word: &str, ty: TypeId) {
        self.text(word);
        let mut next = Some(ty);
        for _ in 0..256 {
            if let Some(t) = next {
                next = self.outermost(t);
            }
        }
    }

    /// What a type is made of, from the outside, and the type inside.
    fn outermost(&mut self, t: TypeId) -> Option<TypeId> {
        if t.0 >= self.types.count() {
            return None;
        }
        let types = self.types;
        match types.shape(t) {
            TypeShape::Void => self.named("void"),
            TypeShape::Integer { bytes, signed } => self.named(integer_name(*bytes, *signed)),
            TypeShape::Pointer(node, to) => {
                self.text("*");
                self.pointed(*node);
                Some(*to)
            }
            TypeShape::Array(element, count) => {
                self.counted("[", i128::from(*count), "]");
                Some(*element)
            }
            TypeShape::Function(parameters, result) => {
                self.counted("fn(", parameters.ids().len() as i128, ") ");
                Some(*result)
            }
            TypeShape::Struct(n) => self.numbered("struct ", *n),
            TypeShape::Union(n) => self.numbered("union ", *n),
        }
    }

    /// The node of a pointer type.
    fn pointed(&mut self, node: NodeId) {
        if self.has_nodes {
            self.number(i128::from(node.0));
            self.text(" ");
        }
    }

    fn counted(&mut self, before: &str, n: i128, behind: &str) {
        self.text(before);
        self.number(n);
        self.text(behind);
    }

    fn named(&mut self, name: &str) -> Option<TypeId> {
        self.text(name);
        None
    }

    fn numbered(&mut self, word: &str, n: u32) -> Option<TypeId> {
        self.text(word);
        self.number(i128::from(n));
        None
    }
}
