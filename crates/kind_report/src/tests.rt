//! Reports of worked pointers, and the counts of pointers of each kind.

ghost use Rattle.std.specs.Prelude.{◌≡◌};

use crate::{PointerCounts, count_pointers, report};
use c_tree::Printed;
use cc_base::{Kind, Kinds, NodeId, Place};
use kind_solver::{Cause, Causes, Solved, Why};
use std::test::Fail;

const fn printed(line: u32, col: u32, node: u32, home: bool) -> Printed
    ensures { result ≡ record {
      place = record { line = line; col = col };
      node = record
          { 0 = node };
      home = home;
    } }
{
    let place = Place { line, col };
    Printed {
        place,
        node: NodeId(node),
        home,
    }
}

/// Two homes, of which one is WILD, and a pointer of each kind. In the text of the first two rows,
/// `int i;int **q=(int **)&i;`, a pointer to an int becomes a pointer to a pointer.
#[test]
fn each_kind_is_reported_with_its_cause(rt: HostRuntime) -> Result<(), Fail> {
    let alloc = rt.alloc();
    let bad = Some(Cause {
        site: Place { line: 1, col: 30 },
        why: Why::Bad,
    });
    let moved = Some(Cause {
        site: Place { line: 12, col: 5 },
        why: Why::Arith,
    });
    let tile = Some(Cause {
        site: Place { line: 7, col: 10 },
        why: Why::Tile,
    });
    let kinds = [
        Kind::Wild,
        Kind::Wild,
        Kind::Safe,
        Kind::Safe,
        Kind::Seq,
        Kind::Rtti,
    ];
    let causes = [bad, bad, None, None, moved, tile];
    let solved = Solved {
        kinds: Kinds::of(Vec::from_slice(alloc, &kinds)?),
        causes: Causes::of(Vec::from_slice(alloc, &causes)?),
    };
    let rows = [
        printed(1, 20, 0, true),
        printed(1, 26, 1, false),
        printed(2, 5, 2, true),
        printed(2, 11, 3, false),
        printed(12, 1, 4, false),
        printed(100, 21, 5, false),
    ];
    let text = report(alloc, &solved, &rows)?;
    let lines =
        "1:20 home WILD from 1:30 bad\n1:26 pointer WILD from 1:30 bad\n2:11 pointer SAFE\n12:1 pointer SEQ from 12:5 arith\n100:21 pointer RTTI from 7:10 tile\n";
    assert_eq!(rt; text.as_slice(), lines.as_bytes());
    let counts = PointerCounts {
        safe: 1,
        seq: 1,
        rtti: 1,
        wild: 1,
    };
    assert_eq!(rt; count_pointers(&solved.kinds, &rows), counts);
    Ok(())
}
