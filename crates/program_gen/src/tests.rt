//! Generated programs: one in full, and the sizes of five.

use crate::make;
use std::test::*;

#[test]
fn the_program_of_one_function(rt: HostRuntime) -> Result<(), Fail> {
    let expected = b"int f1(int *p,int k){p[k]=p[k]+1;return p[(k+1)%4];}
int main(void){int a[4];int s=0;
s=s+f1(a,1);
putchar(48+s%10);putchar(10);return 0;}
";
    assert_eq!(rt; make(rt.alloc(), 1)?.as_slice(), expected.as_slice());
    Ok(())
}

#[test]
fn sizes_of_programs(rt: HostRuntime) -> Result<(), Fail> {
    for (functions, bytes) in [(0, 73), (1, 139), (5, 403), (9, 667), (1000, 71_752)] {
        assert_eq!(rt; make(rt.alloc(), functions)?.len(), bytes);
    }
    Ok(())
}
