// Types of results.

use kern_calls::{ValueType, wider};

#[test]
fn an_int64_makes_the_result_one(rt: HostRuntime) {
    let cases = [
        (ValueType::Int32, ValueType::Int32, ValueType::Int32),
        (ValueType::Int32, ValueType::Int64, ValueType::Int64),
        (ValueType::Int64, ValueType::Int32, ValueType::Int64),
        (ValueType::Int64, ValueType::Int64, ValueType::Int64),
    ];
    for (a, b, want) in cases {
        assert_eq!(rt; wider(a, b), want, "{a:?} {b:?}");
    }
}
