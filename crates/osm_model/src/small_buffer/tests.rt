//! Bytes of a buffer, from the front.
use crate::small_buffer::SmallBuffer;

#[test]
fn gives_its_bytes(rt: HostRuntime) {
    let mut small_buffer = SmallBuffer::new();
    small_buffer.set_bytes(b"dV");
    for byte in [Some(b'd'), Some(b'V'), None] {
        assert_eq!(rt; small_buffer.take(), byte);
    }
    small_buffer.set_integer(b",n", -7);
    small_buffer.drop_front(2);
    assert_eq!(rt; small_buffer.as_slice(), b"-7".as_slice());
}
