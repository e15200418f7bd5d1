//! Files with their lists, or the first fault.

use number_lists::{NumberCause, NumberFault, parse_lists};

#[test]
fn lists_and_faults(rt: HostRuntime) {
    let Ok(lists) = parse_lists(rt.alloc(), b"# two lists\nports: 80, 443\n\n\tzero :0\r\n") else {
        panic!(rt; "each line is in the grammar");
    };
    let [ports, zero] = lists.as_slice() else {
        panic!(rt; "there are two lists");
    };
    assert!(rt; ports.name.is("ports") && ports.numbers.as_slice() == [80, 443].as_slice());
    assert!(rt; zero.name.is("zero") && zero.numbers.as_slice() == [0].as_slice());
    let Err(NumberFault::At { line, cause }) = parse_lists(rt.alloc(), b"a: 1\n\nb: 2,\n") else {
        panic!(rt; "the third line is bad");
    };
    assert!(rt; line == 3 && cause == NumberCause::BadLine);
}
