//! What contracts alone see of files in memory: the path of the call that failed last is kept where
//! there is memory.
use crate::{Buf, FileAnswer, Files, MemoryFiles};
use std::test::Fail;

#[test]
fn the_path_of_a_fault_is_kept(rt: HostRuntime) -> Result<(), Fail> {
    let mut files = MemoryFiles::new(Vec::new(rt.alloc()), vec![in rt.alloc(); 1]?);
    let mut into = Buf::new(rt.alloc());
    assert_eq!(rt;
        files.read_file("city/stops.txt", 7, &mut into),
        FileAnswer::Failed
    );
    assert_eq!(rt; files.fault.as_deref(), Some("city/stops.txt"));
    Ok(())
}
