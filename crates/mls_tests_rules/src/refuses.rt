//! The second allocation of three is refused, and the ones beside it are not.
use refusing::Refusing;
use std::test::Fail;

#[test]
fn refuses_the_allocation_of_its_number_alone(rt: HostRuntime) -> Result<(), Fail> {
    let heap = Refusing::new(rt.alloc(), 2);
    let mut first = Vec::new(&heap);
    first.push(7u32)?;
    assert!(rt; !heap.has_refused());
    let mut second = Vec::new(&heap);
    assert!(rt; second.push(8u32).is_err());
    assert!(rt; heap.has_refused());
    assert!(rt; second.is_empty());
    second.push(9u32)?;
    assert!(rt; first.as_slice() == [7].as_slice());
    assert!(rt; second.as_slice() == [9].as_slice());
    Ok(())
}
