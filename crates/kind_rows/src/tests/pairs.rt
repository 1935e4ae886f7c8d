//! Pairs of types, and how a pointer flows from one to the other.
//!
//! Types are rows: each is made of earlier ones, by their names. A row of a flow has the names of the two types that are pointed to, and
//! its class, or the nodes of the pointers that correspond in it.

ghost use Rattle.std.specs.Prelude.{◌≡◌, [], IsTrue};
ghost use Rattle.std.specs.List.{All};
ghost use Rattle.c_types.specs.Table.{IsType, IsComplete, IsAggregate, members_at};

use c_types::{TypeFault, TypeList, TypeShape, Types};
use cc_base::{NoMemory, NodeId, TypeId};
use phys_types::{FlowClass, Phys};
use std::alloc::Global;
use std::process::Abort;

const CHAR: TypeId = TypeId(1);

const INT: TypeId = TypeId(5);

/// What the type of a row is. The names of members have blanks between them.
enum Made {
    /// It stands in each table, at this number.
    Basic(u32),
    /// A pointer, with its node.
    Pointer(u32, &'static str),
    Array(&'static str, u64),
    /// A function of one parameter, which gives an `int`.
    Function(&'static str),
    Struct(&'static str),
    Union(&'static str),
    /// A struct without members.
    Open,
    /// The struct of this name that an earlier row has without members, with its members.
    Completed(&'static str),
    /// A struct whose members are these in turn, so many times.
    Turns(&'static str, usize),
    /// A struct of a thousand pointers to `char`, with nodes from this one on.
    Texts(u32),
    /// An array of pointers to `char`, the first of so many, with nodes from the first number on. The last number is how many pointers it
    /// has; each of the others has one fewer than the one before.
    Lists(u32, u32, u64),
}

/// Each struct that doesn't hold a pointer to itself has the name that its members spell. `entry` is that of a word counter,
/// `struct entry { struct entry *next; char *word; void *data; }`; `numbers`, `counts`, `letters`, `words`, `lines` and `notes` are lists.
static TYPES: [(&str, Made); 71] = [
    ("void", Made::Basic(0)),
    ("char", Made::Basic(1)),
    ("int", Made::Basic(5)),
    ("unsigned", Made::Basic(6)),
    ("long", Made::Basic(7)),
    ("char[4]", Made::Array("char", 4)),
    ("int[3]", Made::Array("int", 3)),
    ("open", Made::Open),
    ("other", Made::Open),
    ("text", Made::Pointer(0, "char")),
    ("word", Made::Pointer(1, "char")),
    ("line", Made::Pointer(2, "char")),
    ("number", Made::Pointer(3, "int")),
    ("amount", Made::Pointer(4, "int")),
    ("whole", Made::Pointer(5, "unsigned")),
    ("handle", Made::Pointer(6, "open")),
    ("shared", Made::Pointer(7, "open")),
    ("{int}", Made::Struct("int")),
    ("{int,text}", Made::Struct("int text")),
    ("{int,int,text}", Made::Struct("int int text")),
    ("{int,text}[3]", Made::Array("{int,text}", 3)),
    ("{int,word}", Made::Struct("int word")),
    ("{long,text}", Made::Struct("long text")),
    ("{char,word,whole}", Made::Struct("char word whole")),
    ("{text,word}", Made::Struct("text word")),
    ("{text,word}[2]", Made::Array("{text,word}", 2)),
    ("{word,text}", Made::Struct("word text")),
    ("{int,number}", Made::Struct("int number")),
    ("{int,amount}", Made::Struct("int amount")),
    ("entry", Made::Open),
    ("next", Made::Pointer(8, "entry")),
    ("data", Made::Pointer(9, "void")),
    ("entry", Made::Completed("next word data")),
    ("numbers", Made::Open),
    ("more_numbers", Made::Pointer(10, "numbers")),
    ("numbers", Made::Completed("int more_numbers")),
    ("counts", Made::Open),
    ("more_counts", Made::Pointer(11, "counts")),
    ("counts", Made::Completed("int more_counts")),
    ("letters", Made::Open),
    ("more_letters", Made::Pointer(12, "letters")),
    ("letters", Made::Completed("char char more_letters")),
    ("words", Made::Open),
    ("more_words", Made::Pointer(13, "words")),
    ("words", Made::Completed("int more_words word")),
    ("lines", Made::Open),
    ("more_lines", Made::Pointer(14, "lines")),
    ("lines", Made::Completed("text more_lines")),
    ("notes", Made::Open),
    ("more_notes", Made::Pointer(15, "notes")),
    ("notes", Made::Completed("word more_notes")),
    ("first_line", Made::Pointer(16, "lines")),
    ("first_note", Made::Pointer(17, "notes")),
    (
        "{first_line,more_lines}",
        Made::Struct("first_line more_lines"),
    ),
    (
        "{first_note,more_notes}",
        Made::Struct("first_note more_notes"),
    ),
    ("of_number", Made::Function("number")),
    ("of_whole", Made::Function("whole")),
    ("of_text", Made::Function("text")),
    ("of_int", Made::Function("int")),
    ("of_unsigned", Made::Function("unsigned")),
    ("call", Made::Pointer(18, "of_number")),
    ("cry", Made::Pointer(19, "of_text")),
    ("again", Made::Pointer(20, "of_whole")),
    ("mixed", Made::Union("int number")),
    ("other_mixed", Made::Union("int number")),
    ("mixed[3]", Made::Array("mixed", 3)),
    ("{mixed}", Made::Struct("mixed")),
    ("{mixed,number}", Made::Struct("mixed number")),
    ("{mixed,amount}", Made::Struct("mixed amount")),
    ("nested", Made::Union("{int} {int,number}")),
    ("raw", Made::Union("int char")),
];

/// Flows from a pointer to the first type to one to the second.
static CLASSES: [(&str, &str, FlowClass); 45] = [
    ("int", "char[4]", FlowClass::Equal),
    ("int", "unsigned", FlowClass::Equal),
    ("int", "char", FlowClass::UpTile),
    ("char", "int", FlowClass::DownTile),
    ("int[3]", "int", FlowClass::UpTile),
    ("int", "int[3]", FlowClass::DownTile),
    ("int[3]", "long", FlowClass::UpTile),
    ("int", "void", FlowClass::Up),
    ("void", "int", FlowClass::Down),
    ("void", "void", FlowClass::Equal),
    ("open", "void", FlowClass::Up),
    ("open", "open", FlowClass::Equal),
    ("open", "other", FlowClass::Bad),
    ("open", "char", FlowClass::Bad),
    ("{int,text}", "{int}", FlowClass::Up),
    ("{int}", "{int,text}", FlowClass::Down),
    ("{int}", "int", FlowClass::Equal),
    ("{int,text}", "{int,int,text}", FlowClass::Equal),
    ("{int,int,text}", "long", FlowClass::Up),
    ("long", "{int,int,text}", FlowClass::Down),
    ("{int,text}[3]", "{int,text}", FlowClass::UpTile),
    ("{int,text}", "{int,text}[3]", FlowClass::DownTile),
    ("number", "text", FlowClass::Bad),
    ("{int,text}", "text", FlowClass::Bad),
    ("{int}", "void", FlowClass::Up),
    ("void", "{int}", FlowClass::Down),
    ("entry", "entry", FlowClass::Equal),
    ("numbers", "counts", FlowClass::Equal),
    ("numbers", "entry", FlowClass::Bad),
    ("numbers", "letters", FlowClass::Equal),
    ("words", "numbers", FlowClass::Bad),
    ("of_number", "of_whole", FlowClass::Equal),
    ("of_number", "of_text", FlowClass::Bad),
    ("of_int", "of_unsigned", FlowClass::Bad),
    ("of_number", "void", FlowClass::Bad),
    ("int", "of_number", FlowClass::Bad),
    ("call", "again", FlowClass::Equal),
    ("call", "cry", FlowClass::Bad),
    ("mixed", "mixed", FlowClass::Equal),
    ("mixed", "other_mixed", FlowClass::Bad),
    ("mixed", "{mixed}", FlowClass::Equal),
    ("mixed[3]", "mixed", FlowClass::UpTile),
    ("mixed", "int", FlowClass::Bad),
    ("nested", "{int,number}", FlowClass::Equal),
    ("raw", "int", FlowClass::Equal),
];

/// Such flows, with how many pairs of nodes correspond, and these pairs. Where types tile, the pointers at offsets that agree modulo the
/// common unit correspond, across the two and within each.
static PAIRS: [(&str, &str, usize, &[(u32, u32)]); 31] = [
    ("{long,text}", "{int,word}", 1, &[(0, 1)]),
    ("{long,text}", "{long,text}", 1, &[(0, 0)]),
    ("{char,word,whole}", "{long,text}", 1, &[(1, 0)]),
    ("{long,text}", "{char,word,whole}", 1, &[(0, 1)]),
    ("{char,word,whole}", "{int}", 0, &[]),
    ("number", "whole", 1, &[(3, 5)]),
    ("text", "number", 0, &[]),
    ("lines", "notes", 2, &[(0, 1), (14, 15)]),
    ("lines", "lines", 2, &[(0, 0), (14, 14)]),
    ("first_line", "first_note", 3, &[(16, 17), (0, 1), (14, 15)]),
    (
        "{first_line,more_lines}",
        "{first_note,more_notes}",
        3,
        &[(16, 17), (14, 15), (0, 1)],
    ),
    ("{int}", "void", 0, &[]),
    ("void", "{int}", 0, &[]),
    ("void", "void", 0, &[]),
    ("entry", "void", 0, &[]),
    ("entry", "entry", 3, &[(8, 8), (1, 1), (9, 9)]),
    ("entry", "next", 3, &[(8, 8), (1, 1), (9, 9)]),
    ("open", "open", 0, &[]),
    ("handle", "shared", 1, &[(6, 7)]),
    (
        "{text,word}",
        "line",
        7,
        &[(0, 2), (1, 2), (0, 0), (0, 1), (1, 0), (1, 1), (2, 2)],
    ),
    (
        "line",
        "{text,word}",
        7,
        &[(2, 0), (2, 1), (0, 0), (0, 1), (1, 0), (1, 1), (2, 2)],
    ),
    ("{int,text}[3]", "{int,text}", 1, &[(0, 0)]),
    ("{text,word}", "{word,text}", 2, &[(0, 1), (1, 0)]),
    (
        "{text,word}[2]",
        "{word,text}",
        4,
        &[(0, 1), (1, 0), (0, 0), (1, 1)],
    ),
    ("of_number", "of_whole", 1, &[(3, 5)]),
    ("of_number", "of_text", 0, &[]),
    ("of_int", "of_int", 0, &[]),
    ("call", "again", 2, &[(18, 20), (3, 5)]),
    ("mixed", "mixed", 0, &[]),
    ("{mixed,number}", "{mixed,amount}", 1, &[(3, 4)]),
    ("nested", "{int,amount}", 1, &[(3, 4)]),
];

/// Arrays of a million bytes, and structs of a thousand members: one pair of types again and again, or pointers with a node each. There
/// are four thousand long arrays, each of pointers with a node of its own.
static LARGE_TYPES: [(&str, Made); 32] = [
    ("char", Made::Basic(1)),
    ("int", Made::Basic(5)),
    ("long", Made::Basic(7)),
    ("text", Made::Pointer(0, "char")),
    ("word", Made::Pointer(1, "char")),
    ("{int,text}", Made::Struct("int text")),
    ("{int,word}", Made::Struct("int word")),
    ("char[1000000]", Made::Array("char", 1_000_000)),
    ("long[125000]", Made::Array("long", 125_000)),
    ("text[125000]", Made::Array("text", 125_000)),
    ("{int,text}[62500]", Made::Array("{int,text}", 62_500)),
    ("{int,text}[62499]", Made::Array("{int,text}", 62_499)),
    ("{int,word}[62500]", Made::Array("{int,word}", 62_500)),
    ("{int,word}[31250]", Made::Array("{int,word}", 31_250)),
    ("(int,text)*500", Made::Turns("int text", 500)),
    ("(int,text)*499", Made::Turns("int text", 499)),
    ("(int,word)*500", Made::Turns("int word", 500)),
    ("texts", Made::Texts(1000)),
    ("words", Made::Texts(2000)),
    ("texts[3]", Made::Array("texts", 3)),
    ("number", Made::Pointer(2, "int")),
    ("line", Made::Pointer(3, "char")),
    ("text[40]", Made::Array("text", 40)),
    ("text[40][40]", Made::Array("text[40]", 40)),
    ("text[1600]", Made::Array("text", 1_600)),
    ("(text)*1600", Made::Turns("text", 1_600)),
    ("(word)*1600", Made::Turns("word", 1_600)),
    ("(text)*1599", Made::Turns("text", 1_599)),
    ("{(text)*1599,number}", Made::Struct("(text)*1599 number")),
    ("line[65000]", Made::Array("line", 65_000)),
    ("line[70000]", Made::Array("line", 70_000)),
    ("lists", Made::Lists(3000, 4000, 130_000)),
];

static LARGE_CLASSES: [(&str, &str, FlowClass); 14] = [
    ("char[1000000]", "long[125000]", FlowClass::Equal),
    ("char[1000000]", "char", FlowClass::UpTile),
    ("{int,text}[62500]", "{int,text}[62499]", FlowClass::UpTile),
    ("{int,text}[62500]", "char[1000000]", FlowClass::Bad),
    ("(int,text)*500", "(int,word)*500", FlowClass::Equal),
    ("(int,text)*500", "(int,text)*499", FlowClass::UpTile),
    ("(int,text)*499", "(int,word)*500", FlowClass::DownTile),
    ("text[40][40]", "text[1600]", FlowClass::Equal),
    ("text[1600]", "(text)*1600", FlowClass::Equal),
    ("text[1600]", "{(text)*1599,number}", FlowClass::Bad),
    ("(text)*1600", "{(text)*1599,number}", FlowClass::Bad),
    ("{(text)*1599,number}", "(text)*1599", FlowClass::Up),
    ("lists", "line[65000]", FlowClass::UpTile),
    ("line[70000]", "lists", FlowClass::DownTile),
];

/// How many pairs of nodes correspond, and these pairs, or some of them where there are a thousand.
static LARGE_PAIRS: [(&str, &str, usize, &[(u32, u32)]); 11] = [
    ("char[1000000]", "char", 0, &[]),
    ("{int,text}[62500]", "{int,word}[62500]", 1, &[(0, 1)]),
    (
        "{int,text}[62500]",
        "{int,word}",
        3,
        &[(0, 1), (0, 0), (1, 1)],
    ),
    (
        "{int,text}[62500]",
        "{int,word}[31250]",
        3,
        &[(0, 1), (0, 0), (1, 1)],
    ),
    ("text[125000]", "word", 3, &[(0, 1), (0, 0), (1, 1)]),
    ("texts", "words", 1000, &[(1000, 2000), (1999, 2999)]),
    (
        "texts[3]",
        "words",
        3000,
        &[(1000, 2000), (1000, 1000), (2999, 2999)],
    ),
    ("texts", "texts[3]", 1000, &[(1000, 1000), (1999, 1999)]),
    ("text[40][40]", "(word)*1600", 1, &[(0, 1)]),
    ("(text)*1600", "{(text)*1599,number}", 0, &[]),
    (
        "lists",
        "line[65000]",
        3,
        &[(3000, 3), (3000, 3000), (3, 3)],
    ),
];

/// Whether all are complete types of the table.
fn are_complete(types: &Types, members: &[TypeId]) -> bool
    ensures { IsTrue result → All (IsComplete types.now) members.now }
{
    'members: for m in members {
        if m.0 >= types.count() {
            return false;
        }
        if !types.is_complete(*m) {
            return false;
        }
    }
    true
}

/// Whether a type is a struct or union without members.
fn is_open(types: &Types, t: TypeId) -> bool
    requires { IsType types.now t }
    ensures { IsTrue result → IsAggregate types.now t × (members_at types.now t ≡ []) }
{
    match types.shape(t) {
        TypeShape::Struct(_) | TypeShape::Union(_) => types.fields(t) == 0,
        _ => false,
    }
}

/// A pointer to a type, with a node.
fn pointer(rt: &impl Abort, types: &mut Types, node: u32, to: TypeId) -> TypeId {
    assert!(rt; to.0 < types.count());
    types
        .add(TypeShape::Pointer(NodeId(node), to))
        .expect(rt, "a pointer")
}

/// An array.
fn array(rt: &impl Abort, types: &mut Types, element: TypeId, count: u64) -> TypeId {
    assert!(rt; count > 0 && element.0 < types.count());
    assert!(rt; types.is_complete(element));
    types
        .add(TypeShape::Array(element, count))
        .expect(rt, "an array")
}

/// As many arrays of pointers to `char`, with nodes from `first` on: the first, of `length` pointers, and others that have one fewer
/// than the one before.
fn lists(rt: &impl Abort, types: &mut Types, first: u32, count: u32, length: u64) -> TypeId {
    let text = pointer(rt, types, first, CHAR);
    let longest = array(rt, types, text, length);
    for i in 1..count {
        let next = pointer(rt, types, first.saturating_add(i), CHAR);
        let _shorter = array(rt, types, next, length.saturating_sub(i as u64));
    }
    longest
}

/// A function of one parameter.
fn function(rt: &impl Abort, alloc: Global, types: &mut Types, parameter: TypeId) -> TypeId {
    let mut list = Vec::new(alloc);
    list.push(parameter).ok().expect(rt, "a parameter");
    assert!(rt; parameter.0 < types.count() && INT.0 < types.count());
    types
        .add(TypeShape::Function(TypeList::of(list), INT))
        .expect(rt, "a function")
}

/// Gives a struct or union its members.
fn define(
    rt: &impl Abort,
    alloc: Global,
    types: &mut Types,
    t: TypeId,
    members: &[TypeId],
) -> Result<(), TypeFault> {
    assert!(rt; t.0 < types.count());
    assert!(rt; is_open(types, t) && members.len() > 0);
    assert!(rt; are_complete(types, members));
    types.define(t, Vec::from_slice(alloc, members)?)
}

/// The type of a name, by the last row that has it.
fn named(rt: &impl Abort, names: &[(&'static str, TypeId)], name: &str) -> TypeId {
    let mut found = None;
    for (known, t) in names {
        if *known == name {
            found = Some(*t);
        }
    }
    found.expect(rt, name)
}

/// The named types in turn, so many times.
fn in_turn(
    rt: &impl Abort,
    alloc: Global,
    names: &[(&'static str, TypeId)],
    members: &str,
    times: usize,
) -> Vec<TypeId> {
    let mut list = Vec::new(alloc);
    for _turn in 0..times {
        for name in members.split(' ') {
            list.push(named(rt, names, name)).ok().expect(rt, "memory");
        }
    }
    list
}

/// Pointers to `char`, with as many nodes from `first` on.
fn pointers(
    rt: &impl Abort,
    alloc: Global,
    types: &mut Types,
    first: u32,
    count: u32,
) -> Vec<TypeId> {
    let mut list = Vec::new(alloc);
    for i in 0..count {
        let member = pointer(rt, types, first.saturating_add(i), CHAR);
        list.push(member).ok().expect(rt, "memory");
    }
    list
}

/// The members that a row gives its type.
fn members_of(
    rt: &impl Abort,
    alloc: Global,
    types: &mut Types,
    names: &[(&'static str, TypeId)],
    made: &Made,
) -> Vec<TypeId> {
    match *made {
        Made::Struct(members) | Made::Union(members) | Made::Completed(members) => {
            in_turn(rt, alloc, names, members, 1)
        }
        Made::Turns(members, times) => in_turn(rt, alloc, names, members, times),
        Made::Texts(first) => pointers(rt, alloc, types, first, 1000),
        _ => Vec::new(alloc),
    }
}

/// The type of a row, before it gets members.
fn begun(
    rt: &impl Abort,
    alloc: Global,
    types: &mut Types,
    names: &[(&'static str, TypeId)],
    name: &str,
    made: &Made,
) -> TypeId {
    let number = types.count();
    match *made {
        Made::Basic(basic) => TypeId(basic),
        Made::Pointer(node, to) => pointer(rt, types, node, named(rt, names, to)),
        Made::Array(element, count) => array(rt, types, named(rt, names, element), count),
        Made::Lists(first, count, length) => lists(rt, types, first, count, length),
        Made::Function(parameter) => function(rt, alloc, types, named(rt, names, parameter)),
        Made::Completed(_) => named(rt, names, name),
        Made::Union(_) => types.add(TypeShape::Union(number)).expect(rt, "a union"),
        _ => types.add(TypeShape::Struct(number)).expect(rt, "a struct"),
    }
}

/// The types of rows, with their names.
fn make(
    rt: &impl Abort,
    alloc: Global,
    types: &mut Types,
    rows: &[(&'static str, Made)],
) -> Vec<(&'static str, TypeId)> {
    let mut names = Vec::new(alloc);
    for (name, made) in rows {
        let members = members_of(rt, alloc, types, &names, made);
        let t = begun(rt, alloc, types, &names, name, made);
        if !members.is_empty() {
            define(rt, alloc, types, t, &members).expect(rt, "members");
        }
        names.push((*name, t)).ok().expect(rt, "memory");
    }
    names
}

/// Compares the classes of flows.
fn compare_classes(
    rt: &impl Abort,
    alloc: Global,
    types: &Types,
    names: &[(&'static str, TypeId)],
    rows: &[(&'static str, &'static str, FlowClass)],
) -> Result<(), NoMemory> {
    let known = Phys::new(alloc).over(types)?;
    for (from, to, class) in rows {
        let source = named(rt, names, from);
        let target = named(rt, names, to);
        assert!(rt; source.0 < types.count() && target.0 < types.count());
        let found = known.class(source, target).expect(rt, "memory");
        assert_eq!(rt; found, *class, "from {} to {}", *from, *to);
    }
    Ok(())
}

/// Compares the nodes of the pointers that correspond in flows, in any order.
fn compare_pairs(
    rt: &impl Abort,
    alloc: Global,
    types: &Types,
    names: &[(&'static str, TypeId)],
    rows: &[(&'static str, &'static str, usize, &'static [(u32, u32)])],
) -> Result<(), NoMemory> {
    let known = Phys::new(alloc).over(types)?;
    for (from, to, count, nodes) in rows {
        let source = named(rt, names, from);
        let target = named(rt, names, to);
        assert!(rt; source.0 < types.count() && target.0 < types.count());
        let pairs = known.pairs(source, target).expect(rt, "memory");
        assert_eq!(rt; pairs.len(), *count, "from {} to {}", *from, *to);
        for (a, b) in *nodes {
            let pair = (NodeId(*a), NodeId(*b));
            assert!(rt;
                pairs.contains(&pair),
                "from {} to {}: {} and {}",
                *from,
                *to,
                *a,
                *b
            );
        }
    }
    Ok(())
}

/// Makes the types of rows, and compares what flows between them.
fn compare(
    rt: &impl Abort,
    alloc: Global,
    rows: &[(&'static str, Made)],
    classes: &[(&'static str, &'static str, FlowClass)],
    pairs: &[(&'static str, &'static str, usize, &'static [(u32, u32)])],
) -> Result<(), TypeFault> {
    let mut types = Types::new(alloc)?;
    let names = make(rt, alloc, &mut types, rows);
    compare_classes(rt, alloc, &types, &names, classes)?;
    compare_pairs(rt, alloc, &types, &names, pairs)?;
    Ok(())
}

#[test]
fn small_types(rt: HostRuntime) -> Result<(), TypeFault> {
    compare(&rt, rt.alloc(), &TYPES, &CLASSES, &PAIRS)
}

/// Large types are classed quickly, and long arrays take little memory.
#[test]
fn large_types(rt: HostRuntime) -> Result<(), TypeFault> {
    compare(&rt, rt.alloc(), &LARGE_TYPES, &LARGE_CLASSES, &LARGE_PAIRS)
}

/// A question is asked alone.
#[test]
fn one_question(rt: HostRuntime) -> Result<(), TypeFault> {
    let rt = &rt;
    let alloc = rt.alloc();
    let types = Types::new(alloc)?;
    assert!(rt; INT.0 < types.count() && CHAR.0 < types.count());
    let mut phys = Phys::new(alloc);
    assert_eq!(rt; phys.class(&types, INT, CHAR)?, FlowClass::UpTile);
    assert!(rt; phys.pairs(&types, INT, CHAR)?.is_empty());
    Ok(())
}
