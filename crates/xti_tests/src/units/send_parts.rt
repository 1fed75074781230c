//! The parts of a vector send.

use xti_data::SendParts;

#[test]
fn parts_of_a_vector_send(rt: HostRuntime) {
    let mut sends = SendParts::new(rt.alloc());
    let is_added = sends.add(b"ab").is_ok() && sends.add(b"c").is_ok();
    let is_joined = matches!(
        sends.parts().as_slice(),
        [first, second] if first.as_slice() == b"ab".as_slice() && second.as_slice() == b"c".as_slice()
    );
    drop(sends);
    assert!(rt; is_added && is_joined);
}
