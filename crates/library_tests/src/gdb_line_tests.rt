// A line in memory, with ample memory.
use gdb_line::{Line, LineFault, MemoryLine};
use std::test::Fail;

#[test]
fn pieces_come_and_go(rt: HostRuntime) -> Result<(), Fail> {
    let bytes = Vec::from_slice(rt.alloc(), b"+$g#67")?;
    let failing = Vec::from_slice(rt.alloc(), &[4, 6])?;
    let mut line = MemoryLine::new(rt.alloc(), bytes, 4, 5)?.failing(failing);
    let mut room = [0; 8];
    assert_eq!(rt; line.receive(&mut room), Ok(4));
    assert_eq!(rt; &room[..4], b"+$g#".as_slice());
    assert_eq!(rt; line.look(&mut room), Ok(2));
    assert_eq!(rt; line.send(b"+"), Ok(()));
    assert_eq!(rt; line.send(b"$#00"), Err(LineFault::Failed));
    assert_eq!(rt; line.receive(&mut room), Ok(0));
    assert_eq!(rt; line.look(&mut room), Err(LineFault::Failed));
    assert_eq!(rt; line.send(b"$#000"), Err(LineFault::Failed));
    assert_eq!(rt; line.send(b"$#00"), Ok(()));
    assert_eq!(rt; line.went(), b"+$#00".as_slice());
    Ok(())
}
