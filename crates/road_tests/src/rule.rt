// Towns by rule can be built, with as many streets as they should have.
use std::test::Fail;
use test_towns::{complete, grid};

#[test]
fn streets_by_rule(rt: HostRuntime) -> Result<(), Fail> {
    let heap = rt.alloc();
    assert_eq!(rt; grid(heap, 1, 100, 5)?.len(), 99);
    assert_eq!(rt; grid(heap, 10, 10, 1)?.len(), 180);
    assert_eq!(rt; complete(heap, 25)?.len(), 300);
    Ok(())
}
