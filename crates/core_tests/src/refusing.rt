//! What the tests' allocator refuses and counts.

use std::alloc::Global;
use std::test::Fail;
use test_kit::Refusing;

#[test]
fn refuses_the_nth_request_alone(rt: HostRuntime) {
    let memory = Refusing::new(rt.alloc());
    for refused in 0..5 {
        memory.refuse_nth(refused);
        for number in 1..=4 {
            let boxed = Box::new(&memory, number);
            assert_eq!(rt;
                boxed.is_err(),
                number == refused,
                "at {number}, where {refused} is refused"
            );
            assert_eq!(rt; memory.requests(), number);
        }
    }
}

#[test]
fn counts_the_bytes_that_are_asked_for_and_those_that_are_held(
    rt: HostRuntime,
) -> Result<(), Fail> {
    let memory = Refusing::new(rt.alloc());
    // A number has eight bytes.
    let numbers: Vec<u64, &Refusing<Global>> = Vec::with_capacity(&memory, 10)?;
    let bytes = numbers.capacity().saturating_mul(8);
    assert!(rt; bytes >= 80);
    assert!(rt; (memory.bytes_asked(), memory.bytes_held()) == (bytes, bytes));
    memory.refuse_all();
    assert!(rt; Box::new(&memory, 8u64).is_err() && Box::new(&memory, 9u64).is_err());
    assert!(rt; memory.requests() == 2);
    assert!(rt; (memory.bytes_asked(), memory.bytes_held()) == (16, bytes));
    drop(numbers);
    assert!(rt; (memory.bytes_asked(), memory.bytes_held()) == (16, 0));
    Ok(())
}
