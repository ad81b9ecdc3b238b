ghost use Rattle.std.specs.Prelude.{◌≡◌, IsTrue, ◌↔◌, IfOk};

use net_base::*;
use std::alloc::{AllocError, Global};
use std::collections::HashMap;
use std::test::Fail;

/// A struct of lists, whose comparisons are derived.
#[derive(Debug, Drop, Clone, PartialEq, Eq, PartialOrd, Ord, Hash)]
struct Path {
    numbers: Items<u32>,
    is_set: bool,
}

fn is_same(one: &Path, other: &Path) -> bool
    ensures { IsTrue result ↔ (one.now ≡ other.now) }
{
    one == other
}

fn copied(path: &Path) -> Result<Path, AllocError>
    ensures { IfOk result (λ copy. copy ≡ path.now) }
{
    path.clone()
}

fn same_prefixes(one: &PrefixList, other: &PrefixList) -> bool
    ensures { IsTrue result ↔ (one.now ≡ other.now) }
{
    one == other
}

fn path_of(alloc: Global, number: u32) -> Result<Path, AllocError> {
    let mut numbers = Items::new(alloc);
    numbers.push(number)?;
    Ok(Path {
        numbers,
        is_set: false,
    })
}

#[test]
fn lists_are_keys(rt: HostRuntime) -> Result<(), Fail> {
    let mut map = HashMap::new(rt.alloc());
    map.insert(path_of(rt.alloc(), 7)?, 1)?;
    assert_eq!(rt; map.get(&path_of(rt.alloc(), 7)?).copied(), Some(1));
    assert_eq!(rt; map.get(&path_of(rt.alloc(), 8)?).copied(), None);
    assert!(rt; is_same(&path_of(rt.alloc(), 7)?, &copied(&path_of(rt.alloc(), 7)?)?));
    Ok(())
}

#[test]
fn lists_grow(rt: HostRuntime) -> Result<(), Fail> {
    let mut bytes = Bytes::from_slice(rt.alloc(), b"ab")?;
    bytes.extend_from_slice(b"cd")?;
    bytes.push(b'e')?;
    assert_eq!(rt; bytes.as_slice(), b"abcde".as_slice());
    let mut count = 0u32;
    for byte in &bytes {
        if *byte == b'c' && count < 9 {
            count += 1;
        }
    }
    assert_eq!(rt; count, 1);
    assert!(rt; same_prefixes(&Items::new(rt.alloc()), &Items::new(rt.alloc())));
    bytes.clear();
    assert!(rt; bytes.is_empty());
    assert_eq!(rt; Bytes::from_vec(bytes.into_vec()).iter().count(), 0);
    Ok(())
}
